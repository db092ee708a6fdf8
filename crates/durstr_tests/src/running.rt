ghost use Rattle.std.specs.Prelude.{◌≤◌};

use duration_str::Options;
use durstr_run::{RunFault, run};
use std::alloc::Global;
use std::io;
use std::io::{ErrorKind, Read, Write};
use std::test::Fail;

const INPUT: &[u8] = b"3m31\n\n580y*2";

const OUTPUT: &[u8] = b"211000000000 3min 31s\nEmpty input\noverflow error\n";

/// A reader that gives at most `step` bytes per call, and counts the calls. The call after `calls`
/// calls fails, and later ones work again.
#[derive(Drop)]
struct Source<'a> {
    bytes: &'a [u8],
    step: usize,
    calls: usize,
    reads: usize,
    has_failed: bool,
    is_called_again: bool,
}

impl Source<'_> {
    fn new<'a>(bytes: &'a [u8]) -> Source<'a> {
        Source::giving(bytes, usize::MAX, usize::MAX)
    }

    fn giving<'a>(bytes: &'a [u8], step: usize, calls: usize) -> Source<'a> {
        Source {
            bytes,
            step,
            calls,
            reads: 0,
            has_failed: false,
            is_called_again: false,
        }
    }
}

impl Read for Source<'_> {
    fn read(&mut self, buf: &mut [u8]) -> io::Result<usize> {
        self.reads = self.reads.saturating_add(1);
        self.is_called_again |= self.has_failed;
        if self.calls == 0 && !self.has_failed {
            self.has_failed = true;
            return Err(io::Error::from(ErrorKind::Other));
        }
        self.calls = self.calls.saturating_sub(1);
        let count = buf.len().min(self.step).min(self.bytes.len());
        buf[..count].copy_from_slice(&self.bytes[..count]);
        self.bytes = &self.bytes[count..];
        Ok(count)
    }
}

/// A reader that gives blanks without end.
#[derive(Drop)]
struct Blanks;

impl Read for Blanks {
    fn read(&mut self, buf: &mut [u8]) -> io::Result<usize> {
        buf.fill(b' ');
        Ok(buf.len())
    }
}

const ROOM: usize = 2_048;

/// A writer that takes at most `step` bytes per write into a fixed buffer, and counts the flushes.
/// The write after `calls` writes fails, and so does the first flush if `flushes` is not set. Later
/// calls work again.
#[derive(Drop)]
struct Sink {
    held: [u8; ROOM],
    len: usize,
    step: usize,
    calls: usize,
    flushed: usize,
    flushes: bool,
    has_failed: bool,
    is_called_again: bool,
    ghost within: { len ≤ 2_048 },
}

impl Sink {
    fn new() -> Sink {
        Sink::taking(usize::MAX, usize::MAX)
    }

    fn taking(step: usize, calls: usize) -> Sink {
        Sink {
            held: [0; ROOM],
            len: 0,
            step,
            calls,
            flushed: 0,
            flushes: true,
            has_failed: false,
            is_called_again: false,
        }
    }

    fn written(&self) -> &[u8] {
        &self.held[..self.len]
    }
}

impl Write for Sink {
    fn write(&mut self, buf: &[u8]) -> io::Result<usize> {
        self.is_called_again |= self.has_failed;
        if self.calls == 0 && !self.has_failed {
            self.has_failed = true;
            return Err(io::Error::from(ErrorKind::Other));
        }
        self.calls = self.calls.saturating_sub(1);
        let count = buf.len().min(self.step).min(ROOM - self.len);
        self.held[self.len..self.len + count].copy_from_slice(&buf[..count]);
        self.len += count;
        Ok(count)
    }

    fn flush(&mut self) -> io::Result<()> {
        self.flushed = self.flushed.saturating_add(1);
        self.is_called_again |= self.has_failed;
        if self.flushes || self.has_failed {
            return Ok(());
        }
        self.has_failed = true;
        Err(io::Error::from(ErrorKind::Other))
    }
}

/// Whether a run with all options off ends with this answer, has written this text, and has flushed
/// it once if the answer is no error. After a call failed, the run may make no other.
fn ends(
    alloc: Global,
    mut source: Source<'_>,
    mut sink: Sink,
    answer: Result<bool, RunFault>,
    written: &[u8],
) -> bool {
    run(alloc, &mut source, &mut sink, Options::off()) == answer
        && sink.written() == written
        && (answer.is_err() || sink.flushed == 1)
        && !source.is_called_again
        && !sink.is_called_again
}

#[test]
fn answers_each_line(rt: HostRuntime) {
    let rows: [(&[u8], Result<bool, RunFault>, &[u8]); 6] = [
        (INPUT, Ok(false), OUTPUT),
        (b"", Ok(true), b""),
        (b"\xff\n", Ok(false), b"not UTF-8\n"),
        (b"0\n1\r\n", Ok(true), b"0 0s\n1000000000 1s\n"),
        (b"\n", Ok(false), b"Empty input\n"),
        (
            b"1q\n13w\n364d\n",
            Ok(true),
            b"7862400000000000 1q\n7862400000000000 1q\n31449600000000000 4q\n",
        ),
    ];
    for (input, wanted, output) in rows {
        assert!(rt; ends(rt.alloc(), Source::new(input), Sink::new(), wanted, output));
    }
}

#[test]
fn flushes_outputs_of_all_lengths(rt: HostRuntime) -> Result<(), Fail> {
    let (mut input, mut output) = (Vec::new(rt.alloc()), Vec::new(rt.alloc()));
    for lines in 0..400u32 {
        let (source, sink) = (Source::new(&input), Sink::new());
        let is_so = ends(rt.alloc(), source, sink, Ok(true), &output);
        assert!(rt; is_so, "{lines}");
        input.extend_from_slice(b"0\n")?;
        output.extend_from_slice(b"0 0s\n")?;
    }
    Ok(())
}

#[test]
fn reads_inputs_about_each_power_of_two(rt: HostRuntime) -> Result<(), Fail> {
    let blanks = vec![in rt.alloc(); b' '; 1_048_576]?;
    for power in 0..21u32 {
        for len in (1usize << power) - 1..(1usize << power) + 2 {
            let mut source = Source::new(blanks.get(..len).unwrap_or(b" "));
            let mut written = Vec::new(rt.alloc());
            let answer = run(rt.alloc(), &mut source, &mut written, Options::off());
            assert!(rt; answer == Ok(len == 0) && source.bytes.is_empty(), "{len}");
        }
    }
    Ok(())
}

#[test]
fn reads_byte_by_byte(rt: HostRuntime) {
    let source = Source::giving(INPUT, 1, usize::MAX);
    assert!(rt; ends(rt.alloc(), source, Sink::new(), Ok(false), OUTPUT));
}

#[test]
fn hands_on_the_options(rt: HostRuntime) {
    let options = Options {
        no_calc: true,
        ..Options::off()
    };
    let mut sink = Sink::new();
    let answer = run(rt.alloc(), &mut Source::new(b"1s+1s"), &mut sink, options);
    let output: &[u8] = b"1s+1s\n  ^\nexpected number\n";
    assert!(rt; answer == Ok(false) && sink.written() == output);
}

#[test]
fn stops_at_a_failing_writer(rt: HostRuntime) {
    let failed = Err(RunFault::Write);
    for calls in 0..OUTPUT.len() {
        let (source, sink) = (Source::new(INPUT), Sink::taking(1, calls));
        let is_so = ends(rt.alloc(), source, sink, failed, &OUTPUT[..calls]);
        assert!(rt; is_so, "at {calls}");
    }
    let (source, sink) = (Source::new(INPUT), Sink::taking(4, 1));
    assert!(rt; ends(rt.alloc(), source, sink, failed, b"2110"));
}

#[test]
fn stops_at_a_failing_flush_and_a_full_writer(rt: HostRuntime) {
    let failed = Err(RunFault::Write);
    let mut unflushed = Sink::new();
    unflushed.flushes = false;
    assert!(rt; ends(rt.alloc(), Source::new(INPUT), unflushed, failed, OUTPUT));
    let (source, sink) = (Source::new(INPUT), Sink::taking(0, 1));
    assert!(rt; ends(rt.alloc(), source, sink, failed, b""));
}

#[test]
fn stops_at_a_failing_reader(rt: HostRuntime) {
    for calls in 0..INPUT.len() + 1 {
        let source = Source::giving(INPUT, 1, calls);
        let is_so = ends(rt.alloc(), source, Sink::new(), Err(RunFault::Read), b"");
        assert!(rt; is_so, "at {calls}");
    }
    let mut sink = Sink::new();
    let answer = run(rt.alloc(), &mut Blanks, &mut sink, Options::off());
    assert!(rt; answer == Err(RunFault::TooLong) && sink.written().is_empty());
}

#[test]
fn reads_no_more_than_is_allowed(rt: HostRuntime) -> Result<(), Fail> {
    let blanks = vec![in rt.alloc(); b' '; 1_048_577]?;
    let source = Source::new(&blanks);
    assert!(rt; ends(rt.alloc(), source, Sink::new(), Err(RunFault::TooLong), b""));
    Ok(())
}

#[test]
fn reads_as_much_as_is_allowed(rt: HostRuntime) -> Result<(), Fail> {
    let blanks = vec![in rt.alloc(); b' '; 1_048_576]?;
    let mut written = Vec::new(rt.alloc());
    let mut source = Source::new(&blanks);
    let answer = run(rt.alloc(), &mut source, &mut written, Options::off());
    assert!(rt; answer == Ok(false) && written.len() == 1_048_576 + 1 + 1_048_576 + 2 + 16);
    assert!(rt; written.iter().filter(|b| **b == b'\n').count() == 3);
    assert!(rt; written.ends_with(b" ^\nexpected number\n"));
    Ok(())
}

#[test]
fn makes_a_read_for_each_byte_and_one_more(rt: HostRuntime) -> Result<(), Fail> {
    let blanks = vec![in rt.alloc(); b' '; 1_048_577]?;
    let most = blanks.get(1..).unwrap_or_default();
    for (bytes, calls, fault) in [
        (most, 1_048_577, RunFault::Write),
        (most, 1_048_576, RunFault::Read),
        (blanks.as_slice(), 1_048_577, RunFault::TooLong),
    ] {
        let (mut source, mut sink) = (Source::giving(bytes, 1, calls), Sink::taking(0, 1));
        let answer = run(rt.alloc(), &mut source, &mut sink, Options::off());
        let is_so = answer == Err(fault) && source.reads == 1_048_577;
        assert!(rt; is_so, "{fault:?}");
    }
    Ok(())
}
