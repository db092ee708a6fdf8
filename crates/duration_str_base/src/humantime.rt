//! The names and lengths of the units of the crate humantime, with the names that the library reads
//! added.
ghost use Rattle.std.specs.Prelude.{◌≡◌};
ghost use Rattle.duration_str_base.specs.Humantime.{humantime_row_of};
ghost use Rattle.duration_str_base.specs.Internal.UnitTable.{unit_of_packed};

use crate::more_names;
use crate::packed::CAPITAL_M;
use crate::unit::TimeUnit;

#[inline(always)]
pub(crate) fn nanos(unit: TimeUnit) -> u64
    ensures { result ≡ (humantime_row_of unit).nanos }
{
    match unit {
        TimeUnit::Year => 31_557_600_000_000_000,
        TimeUnit::Month => 2_630_016_000_000_000,
        _ => unit.nanos(),
    }
}

#[inline]
pub(crate) fn unit_of_packed(packed: u64) -> Option<TimeUnit>
    ensures { result ≡ unit_of_packed humantime_row_of packed }
{
    if packed == CAPITAL_M {
        return Some(TimeUnit::Month);
    }
    more_names::unit_of_packed(packed)
}
