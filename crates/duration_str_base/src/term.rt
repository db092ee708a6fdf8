//! The value of one term.
ghost use Rattle.std.specs.Prelude.{◌≡◌, None};
ghost use Rattle.std.specs.Str.{chars};
ghost use Rattle.duration_str_base.specs.Text.{number_of};
ghost use Rattle.duration_str_base.specs.Term.{IsNumber, term_of, term_answer};

use crate::cause::Cause;
use crate::table::UnitTable;
use crate::unit::TimeUnit;

impl TimeUnit {
    /// Returns the nanoseconds of a term with this number and this unit. The number must be a
    /// nonempty run of digits.
    ///
    /// # Errors
    ///
    /// It returns `NumberTooLarge` if the number is 2^64 or more, and otherwise `Overflow` if the
    /// value is 2^64 nanoseconds or more. Neither has a place.
    ///
    /// ```
    /// assert_eq!(duration_str::TimeUnit::Hour.value("2"), Ok(7_200_000_000_000));
    /// ```
    pub fn value(self, number: &str) -> Result<u64, Cause>
        requires { IsNumber (chars number.now) }
        ensures { result ≡ term_answer None (term_of (number_of (chars number.now)) self) }
    {
        UnitTable::Own.times(self, number.parse::<u64>().ok(), None)
    }
}
