//! A unit by its name.
ghost use Rattle.std.specs.Prelude.{◌≡◌, IsUtf8, None};
ghost use Rattle.std.specs.Str.{chars};
ghost use Rattle.duration_str_base.specs.Options.{off};
ghost use Rattle.duration_str_base.specs.Rules.{rules_of, unit_of_word};
ghost use Rattle.duration_str_c.specs.Units.{number_of};

use crate::text_of;
use duration_str::{Options, TimeUnit};

/// Returns the number of the unit with this name: its index in `UNITS`, from 0 for the year to 10
/// for the nanosecond. The name is read with all options off, so its ASCII letters may be capitals,
/// and the names that options add are not known, such as the Chinese ones and `mins`. If no unit
/// has this name, or if the bytes are not UTF-8, returns -1.
pub fn duration_str_unit(name: &[u8]) -> i32
    ensures unit { IsUtf8 name.now
        → result ≡ number_of (unit_of_word (rules_of off) (chars name.now)) }
    ensures not_text { ¬ (IsUtf8 name.now) → result ≡ number_of None }
{
    let Some(name) = text_of(name) else {
        return -1;
    };
    match TimeUnit::from_word(name, Options::off()) {
        Some(unit) => unit as i32,
        None => -1,
    }
}
