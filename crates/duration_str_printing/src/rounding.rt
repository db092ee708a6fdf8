//! Durations rounded to those that print whole in a format: that fit into its units and parts, so
//! that their texts leave nothing out.
ghost use Rattle.std.specs.Prelude.{◌≡◌, ◌+◌, ◌-◌, ◌<◌, ◌≤◌, ◌⊎◌, IfNone, IfSome, true};
ghost use Rattle.std.specs.Duration.{as_nanos};
ghost use Rattle.duration_str_printing.specs.Format.{is_in, up_to};
ghost use Rattle.duration_str_printing.specs.Rounding.{IsRounded, IsRoundedDown, IsRoundedUp, IsShown, NoneAbove, NoneShown, OnlyZero};
ghost use Rattle.duration_str_base.specs.Units.{nanos_of};
ghost use Rattle.duration_str_printing.specs.declared.rounding.Rounding.TheVariants.{Up};
ghost use Rattle.duration_str_base.specs.declared.unit.TimeUnit.TheVariants.{Day};

use crate::format::{Format, Units, longest};
use duration_str_base::unit::TimeUnit;
use std::time::Duration;

/// To which duration another one is rounded. The result always prints whole: it fits into the units
/// and parts of a format, so that its text leaves nothing out.
#[derive(Clone, Copy, Debug, PartialEq, Eq, Hash)]
pub enum Rounding {
    /// The greatest duration that prints whole and is not above the given one.
    Down,
    /// The nearest duration that prints whole: of two that are as near, the longer one.
    Nearest,
    /// The least duration that prints whole and is not below the given one.
    Up,
}

/// Returns the duration that is printed or broken down in place of this one.
#[inline(always)]
pub(crate) fn shown(d: Duration, format: Format, rounding: Option<Rounding>) -> Option<Duration>
    ensures some { IfSome result (λ shown. IsShown rounding format (as_nanos d) (as_nanos shown)) }
    ensures none { IfNone result (NoneShown rounding format (as_nanos d)) }
{
    match rounding {
        Some(rounding) => round_to(&d, format, rounding),
        None => Some(d),
    }
}

/// Rounds the duration to one that prints whole in this format: one that fits into the format's
/// units and parts, so that its text leaves nothing out. The format's style does not matter.
///
/// A duration that prints whole is returned as it is. To print or to break down the rounded
/// duration, call [`write_rounded`](crate::write_rounded) or
/// [`Breakdown::rounded`](crate::Breakdown::rounded).
///
/// The result is `None` only for `Rounding::Up`, if no duration up to `Duration::MAX` prints whole
/// and is not below the given one. That is so for 1ns in a format without units or parts.
///
/// ```
/// use duration_str::{Format, Rounding, TimeUnit, round_to};
/// use std::time::Duration;
///
/// let length = Duration::new(7_199, 0); // 1h 59min 59s
/// let one_part = Format::whole().parts(1);
/// let hours = |n: u64| Some(Duration::new(n * 3_600, 0));
/// assert_eq!(round_to(&length, one_part, Rounding::Down), hours(1));
/// assert_eq!(round_to(&length, one_part, Rounding::Nearest), hours(2));
/// assert_eq!(round_to(&length, one_part, Rounding::Up), hours(2));
/// ```
#[must_use]
pub fn round_to(d: &Duration, format: Format, rounding: Rounding) -> Option<Duration>
    ensures some { IfSome result (λ rounded.
        IsRounded rounding format (as_nanos d.now) (as_nanos rounded)) }
    ensures none { IfNone result ((rounding ≡ Up) × NoneAbove format (as_nanos d.now)) }
{
    let (down, up) = neighbors(*d, format);
    match rounding {
        Rounding::Down => Some(down),
        Rounding::Nearest => match up {
            Some(longer) if longer.as_nanos() - d.as_nanos() <= d.as_nanos() - down.as_nanos() =>
                up,
            _ => Some(down),
        },
        Rounding::Up => up,
    }
}

/// Returns the greatest duration that prints whole and is not above this one, and the least that is
/// not below it, if there is one up to `Duration::MAX`.
#[inline(always)]
fn neighbors(d: Duration, format: Format) -> (Duration, Option<Duration>)
    ensures down { IsRoundedDown format (as_nanos d) (as_nanos result.0) }
    ensures some { IfSome result.1 (λ up. IsRoundedUp format (as_nanos d) (as_nanos up)) }
    ensures none { IfNone result.1 (NoneAbove format (as_nanos d)) }
{
    let Some((below, above)) = distances(d.as_nanos(), format) else {
        return (Duration::ZERO, zero(d));
    };
    let down = d.saturating_sub(Duration::from_nanos(below));
    (down, d.checked_add(Duration::from_nanos(above)))
}

/// Returns the duration if it is 0.
fn zero(d: Duration) -> Option<Duration>
    ensures some { IfSome result (λ zero. (as_nanos zero ≡ 0) × (as_nanos d ≡ 0)) }
    ensures none { IfNone result (1 ≤ as_nanos d) }
{
    if d.is_zero() { Some(d) } else { None }
}

/// Returns a set with the same distances. Below a day, it has no unit longer than a day, since such
/// a unit is further away.
#[inline(always)]
fn near_units(nanos: u128, set: Units) -> Units
    ensures { (result ≡ set) ⊎ ((nanos < nanos_of Day) × (is_in set Day ≡ true)
        × (result ≡ up_to Day set)) }
{
    if nanos < u128::from(TimeUnit::Day.nanos()) && set.contains(TimeUnit::Day) {
        return set.up_to(TimeUnit::Day);
    }
    set
}

/// Returns how far the duration is from the two that [`neighbors`] returns, or `None` if the format
/// has no units or no parts, so that only a duration of 0 prints whole.
///
/// The duration that prints whole and comes next after the given one has one count that is greater
/// by one, and no parts after it. So for each unit it is compared with the one whose count of that
/// unit is the next. What the longest unit leaves has 64 bits.
fn distances(nanos: u128, format: Format) -> Option<(u64, u64)>
    ensures below { IfSome result (λ each. each.0 ≤ nanos) }
    ensures down { IfSome result (λ each. IsRoundedDown format nanos (nanos - each.0)) }
    ensures up { IfSome result (λ each. IsRoundedUp format nanos (nanos + each.1)) }
    ensures none { IfNone result (OnlyZero format) }
{
    let near = near_units(nanos, format.units);
    let (first, mut bits) = longest(u32::from(near.bits()))?;
    if format.parts == 0 {
        return None;
    }
    let (count, left) = first.wide_division(nanos);
    let mut most = format.parts;
    if count > 0 {
        most -= 1;
    }
    let mut rest = left as u64;
    let mut above = first.nanos - rest;
    while let Some((row, others)) = longest(bits) {
        if most == 0 || rest == 0 {
            break;
        }
        if row.nanos <= rest {
            most -= 1;
            rest = row.division(rest).1;
        }
        above = above.min(row.nanos - rest);
        bits = others;
    }
    if rest == 0 {
        return Some((0, 0));
    }
    Some((rest, above))
}
