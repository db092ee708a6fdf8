//! Signed durations, read from texts and printed.
ghost use Rattle.std.specs.Prelude.{◌≡◌, pos, ◌^◌, ◌<◌};
ghost use Rattle.std.specs.Duration.{as_nanos};
ghost use Rattle.jiff.specs.Words.{signed_nanos};
ghost use Rattle.duration_str.specs.Configuration.{ParsesAs};

use crate::ext::HumanFormat;
use crate::parser::parse;
use duration_str_refusals::fault::Fault;
use jiff::SignedDuration;
use std::alloc::{AllocError, Allocator};
use std::time::Duration;

/// A signed duration is printed if it is not negative.
impl HumanFormat for SignedDuration {
    ghost nanos = { signed_nanos };

    fn is_printable(&self) -> bool {
        !self.is_negative()
    }

    fn human_format<A: Allocator>(&self, alloc: A) -> Result<String<A>, AllocError> {
        self.unsigned_abs().human_format(alloc)
    }
}

fn to_signed(length: Duration) -> SignedDuration
    requires { as_nanos length < 2 ^ 64 }
    ensures { signed_nanos result ≡ pos (as_nanos length) }
{
    SignedDuration::from_nanos_i128(length.as_nanos() as i128)
}

/// Reads a text as `parse` does, and returns a signed duration. It refuses the same texts as
/// `parse`, for the same causes.
///
/// ```text
/// parse_chrono("1h+30s") // Ok(SignedDuration::from_secs(3_630))
/// ```
pub fn parse_chrono(input: &str) -> Result<SignedDuration, Fault<'_>>
    ensures { ParsesAs signed_nanos input.now result }
{
    let length = parse(input)?;
    Ok(to_signed(length))
}

/// Returns what `parse_chrono` returns.
///
/// ```text
/// parse_time("1h+30s") // Ok(SignedDuration::from_secs(3_630))
/// ```
pub fn parse_time(input: &str) -> Result<SignedDuration, Fault<'_>>
    ensures { ParsesAs signed_nanos input.now result }
{
    parse_chrono(input)
}
