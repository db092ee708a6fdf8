//! Bytes and numbers written to a buffer.
ghost use Rattle.std.specs.Prelude.{◌≤◌, ◌^◌, ◌++◌, ◌<◌, length, take, decimal};
ghost use Rattle.duration_str_base.specs.Buffers.{IsInFront};
ghost use Rattle.duration_str_base.specs.Internal.Writing.{IsWritten};

/// Writes a part after the first `at` bytes of the buffer. Returns where the part ends, or `None`
/// if there is no room for it.
pub fn put(buffer: &mut [u8], at: usize, part: &[u8]) -> Option<usize>
    requires { at ≤ length buffer.old }
    ensures { IsWritten (take at buffer.old ++ part.now) buffer.old result buffer.new }
{
    if part.len() > buffer.len() - at {
        return None;
    }
    let end = at + part.len();
    buffer[at..end].copy_from_slice(part);
    Some(end)
}

#[tactic(auto, using(std::proofs::lemmas::Fmt::decimal_digit))]
pub fn put_decimal(buffer: &mut [u8], at: usize, number: u64) -> Option<usize>
    requires { at ≤ length buffer.old }
    ensures digits { IsInFront (take at buffer.old ++ decimal number) result buffer.new }
    ensures small { number < 2 ^ 64 }
{
    if number < 10 {
        return put(buffer, at, &[b'0' + number as u8]);
    }
    let end = put_decimal(buffer, at, number / 10)?;
    put_decimal(buffer, end, number % 10)
}
