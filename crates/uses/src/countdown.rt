//! Shows the time that is left.
#![tactic(auto)]

ghost use Rattle.std.specs.Prelude.{◌≡◌, ◌↔◌, ◌+◌, ◌≤◌, ℕ, List, chars};
ghost use Rattle.duration_str_printing.specs.Breakdown.{AreParts, sum_of_parts};
ghost use Rattle.duration_str_printing.specs.Format.{IsPrintedWithin};
ghost use Rattle.duration_str_printing.specs.Rounding.{PrintsWhole};
ghost use Rattle.duration_str_base.specs.declared.unit.TimeUnit.{TimeUnit};
ghost use Rattle.uses.specs.Common.{as_nanos, IsPrintedIn};
ghost use Rattle.uses.specs.Countdown.{coarse, IsShown};

use duration_str::laws::{all_parts, never_more, one_rounding, parts_and_rest};
use duration_str::{
    Breakdown, FORMAT_BUFFER_SIZE, Format, Rounding, Style, TimeUnit, round_to, write_format,
};
use std::time::Duration;

/// Writes the time that is left to the caller's buffer, and returns the text. It has at most two
/// parts, and no unit shorter than a second. It never shows more than is left. If the time that it
/// shows is below 2^64 nanoseconds, it is read as that time, whatever the options and the default
/// unit.
///
/// ```text
/// time_left(&Duration::new(5_400, 999_999_999), &mut buffer) // "1h 30min"
/// time_left(&Duration::new(0, 999_999_999), &mut buffer)     // "0s"
/// ```
pub fn time_left<'b>(left: &Duration, buffer: &'b mut [u8; FORMAT_BUFFER_SIZE]) -> &'b str
    ensures { (shown : ℕ) × IsShown (as_nanos left.now) (chars result.now) shown }
{
    never_more();
    write_format(
        left,
        Format::whole().smallest(TimeUnit::Second).parts(2),
        buffer,
    )
}

/// Returns the time that `time_left` shows. As long as it stays the same, the text does too, and
/// nothing has to be drawn.
///
/// ```text
/// shown(&Duration::new(5_400, 999_999_999)) // 5,400 seconds
/// ```
pub fn shown(left: &Duration) -> Duration
    ensures whole { PrintsWhole coarse (as_nanos result) }
    ensures text { (text : List ℕ) → (IsPrintedWithin coarse (as_nanos left.now) text
        ↔ IsPrintedWithin coarse (as_nanos result) text) }
{
    one_rounding();
    let format = Format::whole().smallest(TimeUnit::Second).parts(2);
    match round_to(left, format, Rounding::Down) {
        Some(shown) => shown,
        None => Duration::ZERO,
    }
}

/// Returns how many nanoseconds `time_left` does not show.
///
/// ```text
/// not_shown(&Duration::new(5_400, 999_999_999)) // 999_999_999
/// ```
pub fn not_shown(left: &Duration) -> u128
    ensures { (parts : List (TimeUnit × ℕ)) × AreParts coarse (as_nanos left.now) parts
        × (as_nanos left.now ≡ sum_of_parts parts + result) }
{
    parts_and_rest();
    let mut parts = Breakdown::new(left, Format::whole().smallest(TimeUnit::Second).parts(2));
    while let Some(_) = parts.next() {}
    parts.rest()
}

/// Writes the duration to the caller's buffer, in at most `parts` parts and in a style, and returns
/// the text. If `parts` is eleven or more, the whole duration is printed.
pub fn in_parts<'b>(
    length: &Duration,
    parts: usize,
    style: Style,
    buffer: &'b mut [u8; FORMAT_BUFFER_SIZE],
) -> &'b str
    ensures { 11 ≤ parts → IsPrintedIn style (as_nanos length.now) (chars result.now) }
{
    all_parts();
    write_format(length, Format::whole().parts(parts).style(style), buffer)
}
