use duration_str::Options;
use durstr_run::{RunFault, run};
use refusing::Refusing;
use std::alloc::{AllocError, Global};
use std::io;
use std::io::Read;

fn long_lines(alloc: Global) -> Result<Vec<u8>, AllocError> {
    let mut input = Vec::new(alloc);
    input.extend_from_slice("0".repeat(alloc, 100_000)?.as_bytes())?;
    input.extend_from_slice(b"1s\n")?;
    input.extend_from_slice(&[0xff; 1_000])?;
    input.extend_from_slice("\n1m\u{3000}2\r\n".as_bytes())?;
    input.extend_from_slice("\n".repeat(alloc, 100_000)?.as_bytes())?;
    Ok(input)
}

fn refuses_lines(alloc: Global, mut lines: &[u8], wanted: &str) -> bool {
    let mut output = Vec::new(alloc);
    let answer = run(alloc, &mut lines, &mut output, Options::off());
    answer == Ok(false) && output.as_slice() == wanted.as_bytes()
}

fn refuses_long_lines(alloc: Global) -> Result<bool, AllocError> {
    let first = "1000000000 1s\nnot UTF-8\n1m\u{3000}2\r\n  ^\nexpected ['+', '*']\n";
    let others = "Empty input\n".repeat(alloc, 100_000)?;
    let wanted = format!(in alloc; "{first}{others}")?;
    let lines = long_lines(alloc)?;
    Ok(refuses_lines(alloc, lines.as_slice(), &wanted))
}

#[test]
fn runs_over_long_lines(rt: HostRuntime) {
    assert!(rt; refuses_long_lines(rt.alloc()) == Ok(true));
}

/// Gives at most three bytes in each read.
#[derive(Drop)]
struct InThrees<'a>(&'a [u8]);

impl Read for InThrees<'_> {
    fn read(&mut self, buf: &mut [u8]) -> io::Result<usize> {
        let count = buf.len().min(3).min(self.0.len());
        buf[..count].copy_from_slice(&self.0[..count]);
        self.0 = &self.0[count..];
        Ok(count)
    }
}

fn run_into(heap: &Refusing<Global>, mut room: &mut [u8]) -> Result<bool, RunFault> {
    run(
        heap,
        &mut InThrees(b"3m31\n\n580y*2"),
        &mut room,
        Options::off(),
    )
}

static WRITTEN: [u8; 49] = *b"211000000000 3min 31s\nEmpty input\noverflow error\n";

/// How many requests for memory `run_into` makes, while the request with the number `refused` is
/// refused. The result is `None` if it writes something other than `WRITTEN`, or if it goes on or
/// has written something when the request is refused.
fn requests(alloc: Global, refused: u64) -> Option<u64> {
    let heap = Refusing::nth(alloc, refused);
    let mut held = [0; 49];
    let answer = run_into(&heap, &mut held);
    let is_right = match answer {
        Ok(all_accepted) => heap.made() < refused && !all_accepted && held == WRITTEN,
        Err(RunFault::Memory) => heap.made() == refused && held == [0; 49],
        Err(_) => false,
    };
    is_right.then_some(heap.made())
}

/// The run makes six requests.
#[test]
fn fails_wherever_a_request_is_refused(rt: HostRuntime) {
    for refused in 1..=7u64 {
        assert!(rt;
            requests(rt.alloc(), refused) == Some(refused.min(6)),
            "{refused}"
        );
    }
}
