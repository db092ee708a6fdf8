//! The tables of units by which a text can be read.
ghost use Rattle.std.specs.Prelude.{◌≡◌};
ghost use Rattle.duration_str_base.specs.Internal.Numbers.{checked_term};
ghost use Rattle.duration_str_base.specs.Internal.UnitTable.{unit_of_packed};
ghost use Rattle.duration_str_base.specs.Meaning.{table_of};

use crate::cause::Cause;
use crate::packed::unit_of_packed;
use crate::unit::TimeUnit;
use crate::{humantime, more_names};

#[derive(Clone, Copy, Debug, PartialEq, Eq)]
pub enum UnitTable {
    Own,
    /// The library's own table with more names, such as `mins`.
    More,
    /// The table of the crate humantime, with the names that the library reads added.
    Humantime,
}

impl UnitTable {
    #[inline(always)]
    pub fn unit_of_packed(self, packed: u64) -> Option<TimeUnit>
        ensures { result ≡ unit_of_packed (table_of self) packed }
    {
        match self {
            UnitTable::Own => unit_of_packed(packed),
            UnitTable::More => more_names::unit_of_packed(packed),
            UnitTable::Humantime => humantime::unit_of_packed(packed),
        }
    }

    /// Returns the unit's length in nanoseconds. It is not inline, since what calls it would be
    /// twice as large, with a copy for each unit.
    #[inline(never)]
    pub fn nanos(self, unit: TimeUnit) -> u64
        ensures { result ≡ (table_of self unit).nanos }
    {
        match self {
            UnitTable::Own | UnitTable::More => unit.printed().nanos,
            UnitTable::Humantime => humantime::nanos(unit),
        }
    }

    /// Returns the nanoseconds of a term, or its fault. `number` is `None` for a number of 2^64 or
    /// more, and `place` is the place of a fault.
    #[inline]
    pub fn times(
        self,
        unit: TimeUnit,
        number: Option<u64>,
        place: Option<usize>,
    ) -> Result<u64, Cause>
        ensures { result ≡ checked_term place number (table_of self unit).nanos }
    {
        let Some(n) = number else {
            return Err(Cause::NumberTooLarge { place });
        };
        match self {
            UnitTable::Own | UnitTable::More => {
                let row = unit.printed();
                // In WebAssembly `checked_mul` would be a call.
                if n > row.most {
                    return Err(Cause::Overflow { place });
                }
                Ok(n * row.nanos)
            }
            UnitTable::Humantime => n
                .checked_mul(humantime::nanos(unit))
                .ok_or(Cause::Overflow { place }),
        }
    }
}
