//! The message of a fault.
ghost use Rattle.std.specs.Prelude.{◌≡◌, ◌≤◌, ◌-◌, ◌^◌, ◌<◌, ℕ, ⊤, List, None, Some, IsErr, IsOk, replicate, encode_utf8_all};
ghost use Rattle.std.specs.Fmt.{DisplaysOnOk, DisplaysStyledOnOk, HasWritten, IsPlainFormatter, WritesInCalls};
ghost use Rattle.duration_str_refusals.specs.Messages.{caret_text, message_of, laid_out};
ghost use Rattle.duration_str_base.specs.Causes.{line_of};

use crate::fault::Fault;
use crate::layout::Layout;
use duration_str_base::slice::chars_before;
use std::fmt;

impl Fault<'_> {
    pub(crate) fn layout(&self) -> Layout
        ensures text { laid_out result self.now.text.now (encode_utf8_all (line_of self.now.cause))
            ≡ message_of self.now.text.now self.now.cause }
        ensures small { (place : ℕ) → result ≡ Layout.Byte place → place < 2 ^ 64 }
    {
        let Some(place) = self.cause.place() else {
            return Layout::Line;
        };
        if self.text.as_bytes().contains(&b'\n') {
            return Layout::Byte { place };
        }
        Layout::Caret {
            spaces: chars_before(self.text, place),
        }
    }

    /// Writes the message. It fails only if the sink does.
    #[tactic(auto, using(crate::proofs::SinkLemmas::in_one_call))]
    fn write_message<S: Sink>(&self, sink: &mut S) -> fmt::Result
        ensures writes { IsOk result → WritesInCalls S.took sink.old
            (message_of self.now.text.now self.now.cause) sink.new }
        ensures fails { IsErr result → S.has_failed sink.new }
    {
        let layout = self.layout();
        let line = self.cause.line();
        if let Layout::Line = layout {
            return sink.put(line);
        }
        // Most messages are short and fit into this buffer. Then one call of the sink is enough,
        // which takes less time than several.
        if let Some(message) = layout.message(&mut [0; 256], self.text, line) {
            return sink.put(message);
        }
        match layout {
            Layout::Caret { spaces } => write_caret(sink, self.text, spaces, line),
            // Messages without a caret fit.
            _ => unreachable!(),
        }
    }
}

/// Prints the cause's line. If the fault has a place, the text is printed above the line, and
/// between them a caret, after one space for each character before the place. But if the text has a
/// line feed, the place is printed before the line instead, as in `byte 5: expected number`.
///
/// ```text
/// 3ms-2ms
///    ^
/// expected ['+', '*']
/// ```
impl fmt::Display for Fault<'_> {
    ghost output = { λ fault. Some (message_of fault.text.now fault.cause) };

    fn fmt<W: fmt::Write>(&self, f: &mut fmt::Formatter<W>) -> fmt::Result
        ensures writes { DisplaysOnOk W.write_str_gives f.old result
            (Some (message_of self.now.text.now self.now.cause)) f.new }
        ensures styled { DisplaysStyledOnOk W.write_str_gives f.old result None f.new }
    {
        self.write_message(f)
    }
}

/// What a message is written to.
trait Sink {
    /// A call of `put` with these bytes takes the sink from the first state to the second one.
    ghost took: { Self → List ℕ → Self → Type 0 };

    /// The last call of `put` failed. A function that writes to every sink can show this only after
    /// such a call. So by its clause `fails` it fails only if its sink does. `fmt::Write` has no
    /// such word.
    ghost has_failed: { Self → Type 0 };

    fn put(&mut self, piece: &str) -> fmt::Result
        ensures took { IsOk result → took self.old piece.now self.new }
        ensures fails { IsErr result → has_failed self.new };
}

impl<W: fmt::Write> Sink for fmt::Formatter<W> {
    ghost took = { λ f bytes g. IsPlainFormatter f → HasWritten W.write_str_gives f bytes g };

    ghost has_failed = { λ _. ⊤ };

    fn put(&mut self, piece: &str) -> fmt::Result {
        self.write_str(piece)
    }
}

fn write_caret<S: Sink>(sink: &mut S, text: &str, spaces: usize, line: &str) -> fmt::Result
    ensures writes { IsOk result → WritesInCalls S.took sink.old
        (caret_text text.now spaces line.now) sink.new }
    ensures fails { IsErr result → S.has_failed sink.new }
{
    sink.put(text)?;
    sink.put("\n")?;
    write_spaces(sink, spaces)?;
    sink.put("^\n")?;
    sink.put(line)
}

fn write_spaces<S: Sink>(sink: &mut S, count: usize) -> fmt::Result
    ensures writes { IsOk result → WritesInCalls S.took sink.old (replicate count 32) sink.new }
    ensures fails { IsErr result → S.has_failed sink.new }
{
    let mut left = count;
    while left > 64 {
        sink.put(short_run(64))?;
        left -= 64;
    }
    sink.put(short_run(left))
}

fn short_run(count: usize) -> &'static str
    requires { count ≤ 64 }
    ensures { result.now ≡ replicate count 32 }
{
    &SPACES[..count]
}

const SPACES: &str = "                                                                ";
