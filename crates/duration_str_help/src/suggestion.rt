//! What to write in place of a part of a refused text.
ghost use Rattle.std.specs.Prelude.{◌≡◌, ◌^◌, ◌<◌, ◌≤◌, ◌++◌, length, take, IfSome};
ghost use Rattle.duration_str_base.specs.Buffers.{IsInFront};
ghost use Rattle.duration_str_help.specs.Mends.{suggestion_text, unit_text};
ghost use Rattle.duration_str_help.specs.declared.suggestion.TheConstants.{MAX_SUGGESTION_LEN};

use crate::help::{help_name, put_name};
use duration_str_base::buffer::put_decimal;
use duration_str_base::unit::TimeUnit;

/// No text that `Suggestion::write` returns has more bytes than this.
pub const MAX_SUGGESTION_LEN: usize = 23;

/// The size of a buffer that has room for the text of every suggestion.
pub const SUGGESTION_BUFFER_SIZE: usize = 24;

/// What to write in place of a part of a refused text: a count and then a unit's name, such as
/// `90min`, or only a name, such as `min`. It is empty if that part is to be removed.
///
/// ```
/// use duration_str::{Options, Suggestion, TimeUnit, parse_with};
///
/// let mend = parse_with("1.5h", Options::off()).unwrap_err().mend().unwrap();
/// let ninety_minutes = Suggestion { count: Some(90), unit: Some(TimeUnit::Minute) };
/// assert_eq!(mend.suggestion, ninety_minutes);
/// ```
#[derive(Clone, Copy, Debug, PartialEq, Eq, Hash)]
pub struct Suggestion {
    /// The number to write, if any.
    pub count: Option<u64>,
    /// The unit whose name to write after the number, if any.
    pub unit: Option<TimeUnit>,
}

impl Suggestion {
    /// Returns the name of the unit to write. It is the name that the unit is printed with, but
    /// `us` for the microsecond. It is empty if there is no unit.
    ///
    /// ```
    /// use duration_str::{Suggestion, TimeUnit};
    ///
    /// let micros = Suggestion { count: Some(1500), unit: Some(TimeUnit::MicroSecond) };
    /// assert_eq!(micros.name(), "us");
    /// ```
    #[must_use]
    pub const fn name(self) -> &'static str
        ensures name { result.now ≡ unit_text self.unit }
        ensures short { length result.now ≤ 3 }
    {
        match self.unit {
            Some(unit) => help_name(unit),
            None => "",
        }
    }

    /// Writes the text of the suggestion, such as `90min`, to the start of a buffer, and returns
    /// it. The buffer's old contents do not matter. The call allocates nothing and cannot fail.
    ///
    /// ```
    /// use duration_str::{SUGGESTION_BUFFER_SIZE, Suggestion, TimeUnit};
    ///
    /// let ninety_minutes = Suggestion { count: Some(90), unit: Some(TimeUnit::Minute) };
    /// assert_eq!(ninety_minutes.write(&mut [0; SUGGESTION_BUFFER_SIZE]), "90min");
    /// ```
    #[must_use]
    pub fn write(self, buffer: &mut [u8; SUGGESTION_BUFFER_SIZE]) -> &str
        ensures text { result.now ≡ suggestion_text self }
        ensures short { length result.now ≤ MAX_SUGGESTION_LEN }
    {
        match put_suggestion(buffer, 0, self) {
            // SAFETY: the digits and the name up to `end` are ASCII.
            Some(end) => unsafe { std::str::from_utf8_unchecked(&buffer[..end]) },
            // The longest suggestion fits.
            None => unreachable!(),
        }
    }
}

/// Writes the text of the suggestion after the first `at` bytes of the buffer. Returns where it
/// ends, or `None` if there is no room for it.
pub fn put_suggestion(buffer: &mut [u8], at: usize, suggestion: Suggestion) -> Option<usize>
    requires { at ≤ length buffer.old }
    ensures text { IsInFront (take at buffer.old ++ suggestion_text suggestion)
        result buffer.new }
    ensures small { IfSome suggestion.count (λ count. count < 2 ^ 64) }
{
    let end = match suggestion.count {
        Some(count) => put_decimal(buffer, at, count)?,
        None => at,
    };
    match suggestion.unit {
        Some(unit) => put_name(buffer, end, unit),
        None => Some(end),
    }
}

/// What is replaced, from byte `start` to byte `end` of a text, and what is written instead.
#[derive(Clone, Copy)]
pub struct Replacement {
    pub start: usize,
    pub end: usize,
    pub suggestion: Suggestion,
}
