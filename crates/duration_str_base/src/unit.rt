//! The units of time and their names. The module also exports the options and the operators.
ghost use Rattle.std.specs.Prelude.{◌≡◌, ◌/◌, ◌%◌, Some, encode_utf8_all};
ghost use Rattle.std.specs.Fmt.{padded};
ghost use Rattle.duration_str_base.specs.declared.unit.TimeUnit.TheVariants.{Second};
ghost use Rattle.duration_str_base.specs.Units.{nanos_of, rank_of, row_of};
ghost use Rattle.duration_str_base.specs.Units.{long_name};
ghost use Rattle.duration_str_base.specs.Internal.UnitTable.{printed_row};

pub use crate::operator::CondUnit;
pub use crate::options::Options;
use std::fmt;

/// A unit of time.
///
/// ```
/// use duration_str::TimeUnit;
///
/// assert_eq!(TimeUnit::default(), TimeUnit::Second);
/// assert_eq!(TimeUnit::Minute.to_string(), "min");
/// ```
#[derive(Clone, Copy, Debug, PartialEq, Eq, Hash)]
pub enum TimeUnit {
    /// 365 days.
    Year,
    /// 91 days.
    Quarter,
    /// 30 days.
    Month,
    /// 7 days.
    Week,
    /// 24 hours.
    Day,
    /// 60 minutes.
    Hour,
    /// 60 seconds.
    Minute,
    /// 1,000,000,000 nanoseconds.
    Second,
    /// 1,000,000 nanoseconds.
    MilliSecond,
    /// 1,000 nanoseconds.
    MicroSecond,
    /// The smallest unit.
    NanoSecond,
}

/// The second, which is the default unit of `parse_with`.
impl Default for TimeUnit {
    ghost is_default = { λ unit. unit ≡ Second };

    fn default() -> TimeUnit {
        TimeUnit::Second
    }
}

impl TimeUnit {
    /// Returns the unit's length in nanoseconds.
    ///
    /// ```
    /// assert_eq!(duration_str::TimeUnit::Minute.nanos(), 60_000_000_000);
    /// ```
    #[inline]
    #[must_use]
    pub const fn nanos(self) -> u64
        ensures { result ≡ nanos_of self }
    {
        match self {
            TimeUnit::Year => YEAR,
            TimeUnit::Quarter => QUARTER,
            TimeUnit::Month => MONTH,
            TimeUnit::Week => WEEK,
            TimeUnit::Day => DAY,
            TimeUnit::Hour => HOUR,
            TimeUnit::Minute => MINUTE,
            TimeUnit::Second => SECOND,
            TimeUnit::MilliSecond => MILLISECOND,
            TimeUnit::MicroSecond => MICROSECOND,
            TimeUnit::NanoSecond => NANOSECOND,
        }
    }

    #[tactic(auto, unfolding(std::specs::Prelude::encode_utf8))]
    #[inline(always)]
    pub const fn name(self) -> &'static str
        ensures { result.now ≡ encode_utf8_all (row_of self).printed }
    {
        match self {
            TimeUnit::Year => "y",
            TimeUnit::Quarter => "q",
            TimeUnit::Month => "mon",
            TimeUnit::Week => "w",
            TimeUnit::Day => "d",
            TimeUnit::Hour => "h",
            TimeUnit::Minute => "min",
            TimeUnit::Second => "s",
            TimeUnit::MilliSecond => "ms",
            TimeUnit::MicroSecond => "µs",
            TimeUnit::NanoSecond => "ns",
        }
    }

    #[tactic(auto, unfolding(std::specs::Prelude::encode_utf8))]
    #[inline(always)]
    pub const fn long_name(self) -> &'static str
        ensures { result.now ≡ encode_utf8_all (long_name (row_of self)) }
    {
        match self {
            TimeUnit::Year => "year",
            TimeUnit::Quarter => "quarter",
            TimeUnit::Month => "month",
            TimeUnit::Week => "week",
            TimeUnit::Day => "day",
            TimeUnit::Hour => "hour",
            TimeUnit::Minute => "minute",
            TimeUnit::Second => "second",
            TimeUnit::MilliSecond => "millisecond",
            TimeUnit::MicroSecond => "microsecond",
            TimeUnit::NanoSecond => "nanosecond",
        }
    }

    #[inline(always)]
    pub const fn rank(self) -> usize
        ensures { result ≡ rank_of self }
    {
        self as usize
    }

    #[inline(always)]
    pub fn printed(self) -> &'static Printed
        ensures { result.now ≡ printed_row self }
    {
        &PRINTED[self.rank()]
    }
}

/// Prints the unit's name, such as `min` or `µs`.
impl fmt::Display for TimeUnit {
    ghost output = { λ unit. Some (encode_utf8_all (row_of unit).printed) };

    ghost styled_output = { λ unit style.
        Some (padded style (encode_utf8_all (row_of unit).printed)) };

    fn fmt<W: fmt::Write>(&self, f: &mut fmt::Formatter<W>) -> fmt::Result {
        f.pad(self.name())
    }
}

// The lengths of the units in nanoseconds.
const NANOSECOND: u64 = 1;

const MICROSECOND: u64 = 1_000;

const MILLISECOND: u64 = 1_000 * MICROSECOND;

const SECOND: u64 = 1_000 * MILLISECOND;

const MINUTE: u64 = 60 * SECOND;

const HOUR: u64 = 60 * MINUTE;

const DAY: u64 = 24 * HOUR;

const WEEK: u64 = 7 * DAY;

const MONTH: u64 = 30 * DAY;

const QUARTER: u64 = 91 * DAY;

const YEAR: u64 = 365 * DAY;

/// A unit with its printed name, and its length in nanoseconds.
#[derive(Clone, Copy)]
pub struct Printed {
    pub unit: TimeUnit,
    pub nanos: u64,
    /// The greatest count of the unit that is below 2^64 nanoseconds. Divided by 2^64, it is about
    /// the reciprocal of the unit's length.
    pub most: u64,
    /// The printed name, filled up with spaces, so that every name is copied as four bytes.
    pub letters: [u8; 4],
    /// How many bytes the name has.
    pub width: u8,
}

impl Printed {
    /// Returns the quotient and the remainder. Multiplying by the reciprocal is faster than a
    /// division, and gives the quotient or one less.
    #[inline(always)]
    pub fn division(&self, nanos: u64) -> (u64, u64)
        requires right { self.now ≡ printed_row self.now.unit }
        ensures count { result.0 ≡ nanos / nanos_of self.now.unit }
        ensures rest { result.1 ≡ nanos % nanos_of self.now.unit }
    {
        let count = (nanos as u128 * self.most as u128 >> 64) as u64;
        let rest = nanos - count * self.nanos;
        if rest < self.nanos {
            (count, rest)
        } else {
            (count + 1, rest - self.nanos)
        }
    }

    #[inline(always)]
    pub fn wide_division(&self, nanos: u128) -> (u128, u128)
        requires right { self.now ≡ printed_row self.now.unit }
        ensures count { result.0 ≡ nanos / nanos_of self.now.unit }
        ensures rest { result.1 ≡ nanos % nanos_of self.now.unit }
    {
        if let Ok(small) = u64::try_from(nanos) {
            let (count, rest) = self.division(small);
            return (u128::from(count), u128::from(rest));
        }
        let length = u128::from(self.nanos);
        (nanos / length, nanos % length)
    }
}

/// The units with their printed names, the longest unit first. The names that are read are in
/// another table, so that a program that only prints does not contain them.
pub static PRINTED: [Printed; 11] = [
    Printed {
        unit: TimeUnit::Year,
        nanos: YEAR,
        most: u64::MAX / YEAR,
        letters: *b"y   ",
        width: 1,
    },
    Printed {
        unit: TimeUnit::Quarter,
        nanos: QUARTER,
        most: u64::MAX / QUARTER,
        letters: *b"q   ",
        width: 1,
    },
    Printed {
        unit: TimeUnit::Month,
        nanos: MONTH,
        most: u64::MAX / MONTH,
        letters: *b"mon ",
        width: 3,
    },
    Printed {
        unit: TimeUnit::Week,
        nanos: WEEK,
        most: u64::MAX / WEEK,
        letters: *b"w   ",
        width: 1,
    },
    Printed {
        unit: TimeUnit::Day,
        nanos: DAY,
        most: u64::MAX / DAY,
        letters: *b"d   ",
        width: 1,
    },
    Printed {
        unit: TimeUnit::Hour,
        nanos: HOUR,
        most: u64::MAX / HOUR,
        letters: *b"h   ",
        width: 1,
    },
    Printed {
        unit: TimeUnit::Minute,
        nanos: MINUTE,
        most: u64::MAX / MINUTE,
        letters: *b"min ",
        width: 3,
    },
    Printed {
        unit: TimeUnit::Second,
        nanos: SECOND,
        most: u64::MAX / SECOND,
        letters: *b"s   ",
        width: 1,
    },
    Printed {
        unit: TimeUnit::MilliSecond,
        nanos: MILLISECOND,
        most: u64::MAX / MILLISECOND,
        letters: *b"ms  ",
        width: 2,
    },
    Printed {
        unit: TimeUnit::MicroSecond,
        nanos: MICROSECOND,
        most: u64::MAX / MICROSECOND,
        letters: *b"\xC2\xB5s ",
        width: 3,
    },
    Printed {
        unit: TimeUnit::NanoSecond,
        nanos: NANOSECOND,
        most: u64::MAX / NANOSECOND,
        letters: *b"ns  ",
        width: 2,
    },
];

/// The units, the longest first.
///
/// ```
/// use duration_str::{TimeUnit, UNITS};
///
/// assert_eq!(UNITS.get(1), Some(&TimeUnit::Quarter));
/// ```
pub static UNITS: [TimeUnit; 11] = [
    TimeUnit::Year,
    TimeUnit::Quarter,
    TimeUnit::Month,
    TimeUnit::Week,
    TimeUnit::Day,
    TimeUnit::Hour,
    TimeUnit::Minute,
    TimeUnit::Second,
    TimeUnit::MilliSecond,
    TimeUnit::MicroSecond,
    TimeUnit::NanoSecond,
];
