//! Makes the output for the lines, and writes it.
ghost use Rattle.std.specs.Prelude.{◌≡◌, ℕ, ◌^◌, ◌<◌, List, [], ◌∷◌, ◌++◌, IfOk, OnOk, OnErr, IfSome, IfNone, IsUtf8, decimal, encode_utf8_all, string_bytes};
ghost use Rattle.std.specs.Duration.{as_nanos};
ghost use Rattle.std.specs.Io.KnownBytes.{Appends};
ghost use Rattle.duration_str_printing.specs.Printing.{IsPrinted};
ghost use Rattle.durstr_run.specs.Running.{WritesFront};
ghost use Rattle.durstr_run.specs.Output.{IsLineOutput, IsOutput};

use crate::fault::RunFault;
use crate::lines::first_line;
use duration_str::{HUMAN_BUFFER_SIZE, Options, parse_with, write_human};
use std::alloc::{AllocError, Allocator};
use std::io::Write;
use std::time::Duration;

/// Returns the bytes as a text, or `None` if they are not UTF-8. It first tests for ASCII, since
/// most texts are ASCII.
fn text_of(bytes: &[u8]) -> Option<&str>
    ensures text { IfSome result (λ text. (text.now ≡ bytes.now) × IsUtf8 bytes.now) }
    ensures not_text { IfNone result (¬ (IsUtf8 bytes.now)) }
{
    if bytes.is_ascii() {
        // SAFETY: ASCII is UTF-8.
        return Some(unsafe { str::from_utf8_unchecked(bytes) });
    }
    str::from_utf8(bytes).ok()
}

fn push_value<A: Allocator>(out: &mut String<A>, duration: Duration) -> Result<(), AllocError>
    requires fits { as_nanos duration < 2 ^ 64 }
    ensures { OnOk result ((human : List ℕ) × IsPrinted (as_nanos duration) human
        × (string_bytes out.new ≡ string_bytes out.old
        ++ ((decimal (as_nanos duration) ++ (32 ∷ encode_utf8_all human)) ++ (10 ∷ [])))) }
{
    let nanos = duration.as_nanos() as u64;
    let mut buffer = [0; HUMAN_BUFFER_SIZE];
    let human = write_human(&duration, &mut buffer);
    writeln!(out, "{nanos} {human}")?;
    Ok(())
}

fn push_line<A: Allocator>(
    out: &mut String<A>,
    line: &[u8],
    options: Options,
) -> Result<bool, AllocError>
    ensures { IfOk result (λ accepted. (text : List ℕ) × IsLineOutput options line.now text accepted
        × (string_bytes out.new ≡ string_bytes out.old ++ (text ++ (10 ∷ [])))) }
{
    let Some(text) = text_of(line) else {
        out.push_str("not UTF-8\n")?;
        return Ok(false);
    };
    match parse_with(text, options) {
        Ok(duration) => {
            push_value(out, duration)?;
            Ok(true)
        }
        Err(fault) => {
            writeln!(out, "{fault}")?;
            Ok(false)
        }
    }
}

/// Returns the output for the whole input, and whether every line was accepted.
pub fn output_of<A: Allocator>(
    alloc: A,
    input: &[u8],
    options: Options,
) -> Result<(String<A>, bool), AllocError>
    ensures { IfOk result (λ r. IsOutput options input.now (string_bytes r.0) r.1) }
{
    let mut out = String::new(alloc);
    let mut all_accepted = true;
    let mut rest = input;
    while !rest.is_empty() {
        let (line, after) = first_line(rest);
        let accepted = push_line(&mut out, line, options)?;
        all_accepted &= accepted;
        rest = after;
    }
    Ok((out, all_accepted))
}

/// Writes all the bytes, and flushes the writer.
pub fn write_all<W: Write>(writer: &mut W, bytes: &[u8]) -> Result<(), RunFault>
    ensures ok { OnOk result (Appends (W.contents writer.old) (W.contents writer.new) bytes.now) }
    ensures err { OnErr result (WritesFront
        (W.contents writer.old) (W.contents writer.new) bytes.now) }
    ensures kind { OnErr result (result ≡ Err RunFault.Write) }
{
    let mut written = 0;
    while written < bytes.len() {
        match writer.write(&bytes[written..]) {
            Ok(0) | Err(_) => return Err(RunFault::Write),
            Ok(count) => written += count,
        }
    }
    match writer.flush() {
        Ok(()) => Ok(()),
        Err(_) => Err(RunFault::Write),
    }
}
