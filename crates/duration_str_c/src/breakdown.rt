//! Durations broken down into units.
ghost use Rattle.std.specs.Prelude.{◌≡◌, ◌+◌, ◌*◌, ◌^◌, ◌<◌, ◌≤◌, ◌⊎◌, Any, IfNone, IfSome, IsFalse, IsTrue};
ghost use Rattle.duration_str_printing.specs.Breakdown.{nanos_left, parts_left, sum_of_parts};
ghost use Rattle.duration_str_printing.specs.declared.format.Style.TheVariants.{Short};
ghost use Rattle.duration_str_base.specs.Units.{rank_of};
ghost use Rattle.duration_str_c.specs.Breakdown.{counts_of, IsBrokenDown, IsTooLarge};
ghost use Rattle.duration_str_c.specs.Format.{format_of};
ghost use Rattle.duration_str_c.specs.Rounding.{AreRight, NoneRounded, rounding_numbered};
ghost use Rattle.duration_str_c.specs.declared.breakdown.TheConstants.{UNIT_COUNT};

use crate::format::short_format_of;
use crate::rounding::given;
use duration_str::{Breakdown, TimeUnit, UNITS};

/// How many units there are.
pub const UNIT_COUNT: usize = UNITS.len();

/// Rounds a duration of `secs` seconds and `nanos` nanoseconds, and breaks it down into the units
/// of a set, in at most `parts` parts. Writes to `counts` the count of each unit, the longest unit
/// first, and to `rest` the nanoseconds that no part has. A unit without a part has the count 0.
///
/// The set is given by its bits, and the way of rounding by its number, as for
/// `duration_str_format_with`. A rounded duration has no rest. If the duration is 2^64 seconds or
/// more, if `units` is 0 or above 2,047, if `rounding` is above 3, if there is nothing to round up
/// to, or if a count or the rest needs more than 64 bits, the call returns false, and `counts` and
/// `rest` are unchanged. Otherwise it returns true.
pub fn duration_str_breakdown(
    secs: u64,
    nanos: u64,
    units: u32,
    parts: u32,
    rounding: u32,
    counts: &mut [u64; UNIT_COUNT],
    rest: &mut u64,
) -> bool
    ensures broken_down { IsTrue result → IsBrokenDown (rounding_numbered rounding)
        (format_of units parts Short) (secs * 1_000_000_000 + nanos) counts.new rest.new }
    ensures right { IsTrue result → (0 < units) × (units < 2048)
        × AreRight rounding (secs * 1_000_000_000 + nanos) }
    ensures refused { IsFalse result → (units ≡ 0) ⊎ ((2048 ≤ units)
        ⊎ (NoneRounded rounding (format_of units parts Short) (secs * 1_000_000_000 + nanos)
        ⊎ IsTooLarge (rounding_numbered rounding) (format_of units parts Short)
        (secs * 1_000_000_000 + nanos))) }
    ensures unchanged { IsFalse result → (counts.new ≡ counts.old) × (rest.new ≡ rest.old) }
{
    let Some(format) = short_format_of(units, parts) else {
        return false;
    };
    let Some((duration, rounding)) = given(secs, nanos, rounding) else {
        return false;
    };
    let Some(mut parts) = Breakdown::rounded(&duration, format, rounding) else {
        return false;
    };
    let Some(found) = counts_of(&mut parts) else {
        return false;
    };
    let Ok(left) = u64::try_from(parts.rest()) else {
        return false;
    };
    *counts = found;
    *rest = left;
    true
}

fn counts_of(parts: &mut Breakdown) -> Option<[u64; UNIT_COUNT]>
    ensures some { IfSome result (λ counts. (counts ≡ counts_of (parts_left parts.old))
        × (nanos_left parts.old ≡ sum_of_parts (parts_left parts.old) + nanos_left parts.new)) }
    ensures none { IfNone result (Any (λ n. 2 ^ 64 ≤ n) (counts_of (parts_left parts.old))) }
{
    let mut counts = [0; UNIT_COUNT];
    while let Some((unit, count)) = parts.next() {
        counts[rank(unit)] = u64::try_from(count).ok()?;
    }
    Some(counts)
}

fn rank(unit: TimeUnit) -> usize
    ensures value { result ≡ rank_of unit }
    ensures inside { result < UNIT_COUNT }
{
    unit as usize
}
