//! The product of two durations.
ghost use Rattle.std.specs.Prelude.{◌≡◌, ℕ, ◌^◌, ◌≤◌, List, IfSome, IfNone};
ghost use Rattle.uses.specs.Common.{as_nanos, IsRead, Rules};

use duration_str::TimeUnit;
use duration_str::laws::two_factors;
use std::time::Duration;

const NANOS_PER_SECOND: u128 = 1_000_000_000;

/// A number of units, as in `10ms`.
#[derive(Clone, Copy, Debug, PartialEq, Eq)]
pub struct Part {
    /// How many units.
    pub number: u64,
    /// The unit.
    pub unit: TimeUnit,
}

impl Part {
    ghost use Rattle.uses.specs.Product.{nanos_in};

    /// Returns the length in nanoseconds, or `None` if it is 2^64 or more.
    pub fn nanos(self) -> Option<u64>
        ensures some { IfSome result (λ nanos. nanos ≡ nanos_in self) }
        ensures none { IfNone result (2 ^ 64 ≤ nanos_in self) }
    {
        self.number.checked_mul(self.unit.nanos())
    }

    pub(crate) fn wide_nanos(self) -> u128
        ensures { result ≡ nanos_in self }
    {
        self.number as u128 * self.unit.nanos() as u128
    }
}

ghost use Rattle.uses.specs.Product.{MultipliesInEitherOrder};

/// Returns the product of the two parts. By the library's own units, with any default unit, and if
/// operators are read, each text that multiplies them, in either order, is read as this duration.
/// The result is `None` if no such text is accepted. So a program can test for an overflow
/// before it makes the text.
///
/// ```text
/// let rate = Part { number: 10, unit: TimeUnit::MilliSecond };
/// let length = Part { number: 1, unit: TimeUnit::Minute };
/// scaled(rate, length) // Some(Duration::from_millis(600)), as are `10ms*1m` and `1m * 10 ms`
/// ```
pub fn scaled(rate: Part, length: Part) -> Option<Duration>
    ensures read { IfSome result (λ d. (r : Rules) (text : List ℕ)
        → MultipliesInEitherOrder r rate length text → IsRead r text (as_nanos d)) }
    ensures refused { IfNone result ((r : Rules) (text : List ℕ) (nanos : ℕ)
        → MultipliesInEitherOrder r rate length text → IsRead r text nanos → ⊥) }
{
    two_factors();
    let nanos = rate.nanos()?;
    let other_nanos = length.nanos()?;
    match u64::try_from(nanos as u128 * other_nanos as u128 / NANOS_PER_SECOND) {
        Ok(product) => Some(Duration::from_nanos(product)),
        Err(_) => None,
    }
}
