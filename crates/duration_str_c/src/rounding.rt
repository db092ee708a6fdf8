//! Durations that are given by numbers, and how they are rounded.
ghost use Rattle.std.specs.Prelude.{◌≡◌, ◌+◌, ◌*◌, ◌<◌, ◌⊎◌, IfSome, IfNone};
ghost use Rattle.std.specs.Duration.{FitsDuration, as_nanos};
ghost use Rattle.duration_str_c.specs.Rounding.{AreRight, rounding_numbered};

use duration_str::Rounding;
use std::time::Duration;

/// Returns the sum of the seconds and the nanoseconds, and the way of rounding.
///
/// The ways of rounding are 0 for none, 1 for down, 2 for the nearest and 3 for up. If the sum is
/// 2^64 seconds or more, or if `rounding` is above 3, returns `None`.
#[inline(always)]
pub(crate) fn given(secs: u64, nanos: u64, rounding: u32) -> Option<(Duration, Option<Rounding>)>
    ensures right { IfSome result (λ given. AreRight rounding (secs * 1_000_000_000 + nanos)) }
    ensures duration { IfSome result (λ given. as_nanos given.0 ≡ secs * 1_000_000_000 + nanos) }
    ensures rounding { IfSome result (λ given. given.1 ≡ rounding_numbered rounding) }
    ensures none { IfNone result
        ((FitsDuration (secs * 1_000_000_000 + nanos) → ⊥) ⊎ (3 < rounding)) }
{
    let sum = Duration::from_secs(secs).checked_add(Duration::from_nanos(nanos))?;
    match rounding {
        0 => Some((sum, None)),
        1 => Some((sum, Some(Rounding::Down))),
        2 => Some((sum, Some(Rounding::Nearest))),
        3 => Some((sum, Some(Rounding::Up))),
        _ => None,
    }
}
