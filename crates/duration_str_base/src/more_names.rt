//! More names of the units, which people write and the library's own table lacks.
ghost use Rattle.std.specs.Prelude.{◌≡◌};
ghost use Rattle.duration_str_base.specs.MoreNames.{more_row_of};
ghost use Rattle.duration_str_base.specs.Internal.UnitTable.{added_row_of, unit_of_packed};

use crate::packed;
use crate::packed::MODULUS;
use crate::unit::TimeUnit;
use crate::unit::TimeUnit::{
    Hour, MicroSecond as Micro, MilliSecond as Milli, Minute, Month, NanoSecond as Nano, Quarter,
    Second, Week, Year,
};

#[inline]
pub fn unit_of_packed(packed: u64) -> Option<TimeUnit>
    ensures { result ≡ unit_of_packed more_row_of packed }
{
    match packed::unit_of_packed(packed) {
        Some(unit) => Some(unit),
        None => added_unit(packed),
    }
}

/// Returns the unit that has the name among those that are added to the library's own table.
#[inline]
pub fn added_unit(packed: u64) -> Option<TimeUnit>
    ensures { result ≡ unit_of_packed added_row_of packed }
{
    // The product is computed as in `packed.rt`.
    let slot = ((packed as u128 * SPREAD as u128) % MODULUS) as u64 >> 59;
    let name = SLOTS[slot as usize] as usize;
    if NAMES[name] == packed {
        Some(NAMED_UNITS[name])
    } else {
        None
    }
}

/// A multiplier that gives each packed name a slot of its own: bits 59 to 63 of the product.
/// `tools/slots` finds it, and writes the tables below.
const SPREAD: u64 = 2_319_149_044_724_198_725;

/// The index of the name in each slot, and 0 in an empty one.
static SLOTS: [u8; 32] = [
    16, 7, 14, 15, 9, 0, 0, 4, 8, 23, 10, 11, 13, 0, 2, 18, 0, 21, 5, 17, 0, 0, 20, 22, 1, 3, 6, 0,
    0, 19, 12, 0,
];

static NAMES: [u64; 24] = [
    1_018, // yr
    40_739, // yrs
    28_018, // qtr
    1_120_739, // qtrs
    856_579, // mons
    21_608, // mth
    864_339, // mths
    931, // wk
    37_259, // wks
    13_539, // hrs
    846_979, // mins
    1_224_139, // secs
    34_504_139, // msecs
    33_875_689, // milli
    1_355_027_579, // millis
    70_344_139, // µsecs
    4_502_024_662_579, // µseconds
    54_984_139, // usecs
    3_518_984_662_579, // useconds
    33_861_535, // micro
    1_354_461_419, // micros
    37_064_139, // nsecs
    898_175, // nano
    35_927_019, // nanos
];

/// The unit of each name, in the order of `NAMES`.
static NAMED_UNITS: [TimeUnit; 24] = [
    Year, Year, Quarter, Quarter, Month, Month, Month, Week, Week, Hour, Minute, Second, Milli,
    Milli, Milli, Micro, Micro, Micro, Micro, Micro, Micro, Nano, Nano, Nano,
];
