//! A run, from a reader to a writer.
ghost use Rattle.std.specs.Prelude.{IfOk, IfErr};
ghost use Rattle.durstr_run.specs.Running.{WritesOutput, Leaves};

use crate::fault::RunFault;
use crate::input::read_all;
use crate::output::{output_of, write_all};
use duration_str::Options;
use std::alloc::Allocator;
use std::io::{Read, Write};

/// Reads the whole input, then writes the output for its lines.
///
/// Lines are cut at line feeds. For each line the output has a text and a line feed. For an
/// accepted line, the text is its value in nanoseconds, a space and the printed duration. For a
/// refused line, it is the fault's message. For a line that is not UTF-8, it says so.
///
/// The clauses are about the bytes that the reader says it has left (`R.remaining`), and the bytes
/// that the writer says it holds (`W.contents`). A `&[u8]` and a `Vec<u8>` say which bytes they
/// have. Standard input and output, files and sockets don't, so the clauses say nothing about them.
///
/// `Ok(true)` means that every line was accepted, and `Ok(false)` that some line was not. In both
/// cases everything was written and flushed. The input may have at most 1,048,576 bytes. After the
/// errors `Read`, `TooLong` and `Memory` nothing was written. After `Write` the output may be
/// incomplete.
///
/// ```text
/// run(alloc, &mut "3m31".as_bytes(), &mut output, Options::off()) // Ok(true)
/// // `output` has the line `211000000000 3min 31s`
/// ```
pub fn run<A: Allocator, R: Read, W: Write>(
    alloc: A,
    reader: &mut R,
    writer: &mut W,
    options: Options,
) -> Result<bool, RunFault>
    ensures ok { IfOk result (λ accepted. WritesOutput options accepted
        (R.remaining reader.old) (R.remaining reader.new)
        (W.contents writer.old) (W.contents writer.new)) }
    ensures err { IfErr result (λ fault. Leaves options fault
        (R.remaining reader.old) (R.remaining reader.new)
        (W.contents writer.old) (W.contents writer.new)) }
{
    let input = read_all(&alloc, reader)?;
    let (text, all_accepted) = output_of(&alloc, &input, options)?;
    write_all(writer, text.as_bytes())?;
    Ok(all_accepted)
}
