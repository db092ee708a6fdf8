//! Durations printed for people, such as `3min 13s 29ms`: whole, or in a format.
//!
//! A function with an argument `at` writes after the first `at` bytes of the buffer, and returns
//! where to go on writing.
ghost use Rattle.std.specs.Prelude.{ℕ, All, List, ◌≡◌, ◌+◌, ◌-◌, ◌*◌, ◌/◌, ◌%◌, ◌<◌, ◌≤◌, ◌++◌, ◌^◌, ◌∷◌, [], take, drop, length, decimal, encode_utf8_all, chars, IsUtf8, IfNone, IfSome};
ghost use Rattle.std.specs.Duration.{as_nanos};
ghost use Rattle.duration_str_printing.specs.declared.format.Style.{Style};
ghost use Rattle.duration_str_printing.specs.declared.format.Units.{Units};
ghost use Rattle.duration_str_printing.specs.declared.format.Style.TheVariants.{Long, Short};
ghost use Rattle.duration_str_base.specs.declared.unit.TimeUnit.{TimeUnit};
ghost use Rattle.duration_str_base.specs.declared.unit.TimeUnit.TheVariants.{Year};
ghost use Rattle.duration_str_printing.specs.declared.printing.TheConstants.{MAX_PRINTED_LEN};
ghost use Rattle.duration_str_base.specs.Units.{nanos_of, row_of, unit_lengths, units};
ghost use Rattle.duration_str_printing.specs.Printing.{IsPrinted};
ghost use Rattle.duration_str_printing.specs.Rounding.{IsPrintedRounded, NoneShown};
ghost use Rattle.duration_str_printing.specs.PrintingLaws.{counts_of};
ghost use Rattle.duration_str_printing.specs.Format.{IsPrintedWithin, chosen, counts_within, lengths_within, most_len, text_within, units_within};
ghost use Rattle.duration_str_printing.specs.Internal.PrintedBytes.{name_part, part_bytes, with_counts, with_gap, with_part, with_parts};
ghost use Rattle.duration_str_base.specs.Internal.UnitTable.{printed_row};

use crate::breakdown::Breakdown;
use crate::format::{Format, Style, Units};
use crate::rounding::{Rounding, shown};
use duration_str_base::unit::{Printed, TimeUnit, UNITS};
use std::time::Duration;

/// The greatest length in bytes of a printed duration, except in the long style. The text
/// `100000000000y 3q 2mon 3w 6d 23h 59min 59s 999ms 999µs 999ns` has this length.
///
/// ```
/// use duration_str::{HUMAN_BUFFER_SIZE, MAX_PRINTED_LEN, write_human};
/// use std::time::Duration;
///
/// let longest = Duration::new(3_153_600_000_031_190_399, 999_999_999);
/// assert_eq!(write_human(&longest, &mut [0; HUMAN_BUFFER_SIZE]).len(), MAX_PRINTED_LEN);
/// ```
pub const MAX_PRINTED_LEN: usize = 60;

/// The size of the buffer for `write_human`. It has room for the longest text and four more bytes,
/// since every name is copied as four bytes.
pub const HUMAN_BUFFER_SIZE: usize = 64;

/// Prints a duration to the start of a buffer, and returns the text. The buffer's old contents do
/// not matter. The text has at most 60 bytes, and bytes after it may change too. The call allocates
/// nothing and cannot fail.
///
/// ```
/// use duration_str::{HUMAN_BUFFER_SIZE, write_human};
/// use std::time::Duration;
///
/// let mut buffer = [0; HUMAN_BUFFER_SIZE];
/// assert_eq!(write_human(&Duration::new(193, 29_000_000), &mut buffer), "3min 13s 29ms");
/// assert_eq!(write_human(&Duration::ZERO, &mut buffer), "0s");
/// ```
#[tactic(auto, unfolding(crate::specs::Internal::PrintedBytes::digits))]
#[must_use]
pub fn write_human<'b>(d: &Duration, buffer: &'b mut [u8; HUMAN_BUFFER_SIZE]) -> &'b str
    ensures text { IsPrinted (as_nanos d.now) (chars result.now) }
    ensures short { length result.now ≤ MAX_PRINTED_LEN }
{
    let end = fill(*d, Format::whole(), buffer);
    printed(buffer, end)
}

/// The greatest length in bytes of a printed duration in the long style. The text `100000000000
/// years 3 quarters 2 months 3 weeks 6 days 23 hours 59 minutes 59 seconds 999 milliseconds 999
/// microseconds 999 nanoseconds` has this length.
pub const MAX_LONG_LEN: usize = 134;

/// The size of the buffer for `write_format`. It is the same for all styles.
pub const FORMAT_BUFFER_SIZE: usize = 144;

/// Prints a duration in this format to the start of a buffer, and returns the text. The buffer's
/// old contents do not matter.
///
/// The text has as many of the largest chosen unit as fit into the duration, then as many of the
/// next one as fit into the rest, and so on. Counts of 0 are left out. A count with its unit is a
/// part. After the greatest number of parts, the rest is left out. If there are no parts, the text
/// is a zero of the smallest chosen unit, such as `0 hours` or `0h`, or of seconds if that unit is
/// shorter than a second.
///
/// The format has the chosen units and the greatest number of parts. A format without units prints
/// every duration as zero seconds, such as `0s`.
///
/// The text has at most 60 bytes, or 134 in the long style. Bytes after it may change too. The call
/// allocates nothing and cannot fail.
///
/// ```
/// use duration_str::{FORMAT_BUFFER_SIZE, Format, Style, TimeUnit, write_format};
/// use std::time::Duration;
///
/// let build = Duration::new(193, 29_000_000);
/// let mut buffer = [0; FORMAT_BUFFER_SIZE];
/// let two_parts = Format::whole().parts(2);
/// assert_eq!(write_format(&build, two_parts, &mut buffer), "3min 13s");
/// let hours = Format::whole().smallest(TimeUnit::Hour);
/// assert_eq!(write_format(&build, hours, &mut buffer), "0h");
/// assert_eq!(write_format(&build, hours.largest(TimeUnit::Minute), &mut buffer), "0s");
/// let long = two_parts.style(Style::Long);
/// assert_eq!(write_format(&build, long, &mut buffer), "3 minutes 13 seconds");
/// ```
#[tactic(auto, using(crate::proofs::FormatLemmas::printed_within))]
#[inline(always)]
#[must_use]
pub fn write_format<'b>(
    d: &Duration,
    format: Format,
    buffer: &'b mut [u8; FORMAT_BUFFER_SIZE],
) -> &'b str
    ensures text { IsPrintedWithin format (as_nanos d.now) (chars result.now) }
    ensures short { length result.now ≤ most_len format.style }
{
    let end = fill(*d, format, buffer);
    printed(buffer, end)
}

#[inline(always)]
#[tactic(auto, using(duration_str_base::proofs::DigitLemmas::put_steps))]
fn put_digit(buffer: &mut [u8], at: usize, digit: u64) -> usize
    requires room { at + 1 ≤ length buffer.old }
    requires digit { digit < 10 }
    ensures text { take result buffer.new ≡ take at buffer.old ++ decimal digit }
    ensures end { result ≡ at + 1 }
{
    buffer[at] = b'0' + digit as u8;
    at + 1
}

#[tactic(auto, using(duration_str_base::proofs::DigitLemmas::put_steps))]
pub(crate) fn put_number(buffer: &mut [u8], at: usize, n: u64) -> usize
    requires room { at + length (decimal n) ≤ length buffer.old }
    ensures text { take result buffer.new ≡ take at buffer.old ++ decimal n }
    ensures end { result ≡ at + length (decimal n) }
{
    if n < 10 {
        return put_digit(buffer, at, n);
    }
    let end = put_number(buffer, at, n / 10);
    put_digit(buffer, end, n % 10)
}

/// Writes a number below 100. A single digit is written over a `0`, so that no branch on the number
/// of digits is needed. (Such a branch is hard to predict.)
#[inline(always)]
#[tactic(auto, using(duration_str_base::proofs::DigitLemmas::put_steps))]
fn put_tens(buffer: &mut [u8], at: usize, n: u64) -> usize
    requires room { at + length (decimal n) ≤ length buffer.old }
    requires short { n < 100 }
    ensures text { take result buffer.new ≡ take at buffer.old ++ decimal n }
    ensures end { result ≡ at + length (decimal n) }
{
    let tens = n / 10;
    let end = put_digit(buffer, at, tens);
    let last = if n < 10 { at } else { end };
    put_digit(buffer, last, n - 10 * tens)
}

#[inline(always)]
#[tactic(auto, using(duration_str_base::proofs::DigitLemmas::put_steps))]
fn put_hundreds(buffer: &mut [u8], at: usize, n: u64) -> usize
    requires room { at + length (decimal n) ≤ length buffer.old }
    requires short { n < 1000 }
    ensures text { take result buffer.new ≡ take at buffer.old ++ decimal n }
    ensures end { result ≡ at + length (decimal n) }
{
    let tens = n / 10;
    let end = put_tens(buffer, at, tens);
    let last = if n < 10 { at } else { end };
    put_digit(buffer, last, n - 10 * tens)
}

/// Writes a count. Most counts have up to three digits, and take no call.
#[inline(always)]
#[tactic(auto, using(duration_str_base::proofs::DigitLemmas::put_steps))]
fn put_count(buffer: &mut [u8], at: usize, n: u64) -> usize
    requires room { at + length (decimal n) ≤ length buffer.old }
    ensures text { take result buffer.new ≡ take at buffer.old ++ decimal n }
    ensures end { result ≡ at + length (decimal n) }
{
    if n < 100 {
        return put_tens(buffer, at, n);
    }
    if n < 1_000 {
        let tens = n / 10;
        let end = put_tens(buffer, at, tens);
        return put_digit(buffer, end, n - 10 * tens);
    }
    put_number(buffer, at, n)
}

#[inline(always)]
fn put_str(buffer: &mut [u8], at: usize, text: &str) -> usize
    requires room { at + length text.now ≤ length buffer.old }
    ensures text { take result buffer.new ≡ take at buffer.old ++ text.now }
    ensures end { result ≡ at + length text.now }
{
    let end = at + text.len();
    buffer[at..end].copy_from_slice(text.as_bytes());
    end
}

#[inline(always)]
fn put_gap(buffer: &mut [u8], at: usize, style: Style) -> usize
    requires room { at < length buffer.old }
    ensures text { take result buffer.new ≡ with_gap style (take at buffer.old) }
    ensures end { result ≤ at + 1 }
    ensures first { at ≡ 0 → result ≡ 0 }
{
    if at == 0 || style == Style::Compact {
        return at;
    }
    put_str(buffer, at, " ")
}

#[tactic(auto, using(duration_str_base::proofs::DigitLemmas::put_steps))]
fn put_wide(buffer: &mut [u8], at: usize, n: u128) -> usize
    requires room { at + length (decimal n) ≤ length buffer.old }
    ensures text { take result buffer.new ≡ take at buffer.old ++ decimal n }
    ensures end { result ≡ at + length (decimal n) }
{
    if let Ok(small) = u64::try_from(n) {
        return put_number(buffer, at, small);
    }
    let end = put_wide(buffer, at, n / 10);
    put_digit(buffer, end, (n % 10) as u64)
}

/// Writes the unit's name. It copies four bytes, the name and the spaces that fill it up, since
/// that takes no call.
#[tactic(auto, using(crate::proofs::FormatLemmas::name_copied, crate::proofs::FormatLemmas::name_spaced, crate::proofs::FormatLemmas::name_short))]
#[inline(always)]
fn put_name(buffer: &mut [u8], at: usize, row: &Printed) -> usize
    requires right { row.now ≡ printed_row row.now.unit }
    requires room { at + 4 ≤ length buffer.old }
    ensures text { take result buffer.new
        ≡ take at buffer.old ++ encode_utf8_all (row_of row.now.unit).printed }
    ensures end { result ≡ at + length (encode_utf8_all (row_of row.now.unit).printed) }
    ensures inside { result ≤ length buffer.old }
    ensures space { take (result + 1) buffer.new
        ≡ take at buffer.old ++ encode_utf8_all (row_of row.now.unit).printed ++ 32 ∷ [] }
{
    buffer[at..at + 4].copy_from_slice(&row.letters);
    at + usize::from(row.width)
}

#[inline(never)]
fn put_long_name(buffer: &mut [u8], at: usize, unit: TimeUnit, one: bool) -> usize
    requires room { at + length (encode_utf8_all (name_part Long one unit)) ≤ length buffer.old }
    ensures text { take result buffer.new
        ≡ take at buffer.old ++ encode_utf8_all (name_part Long one unit) }
    ensures end { result ≡ at + length (encode_utf8_all (name_part Long one unit)) }
{
    let start = put_str(buffer, at, " ");
    let end = put_str(buffer, start, unit.long_name());
    if one {
        return end;
    }
    put_str(buffer, end, "s")
}

#[inline(always)]
fn put_name_in(buffer: &mut [u8], at: usize, row: &Printed, one: bool, style: Style) -> usize
    requires right { row.now ≡ printed_row row.now.unit }
    requires room { at + length (encode_utf8_all (name_part style one row.now.unit)) + 4
        ≤ length buffer.old }
    ensures text { take result buffer.new
        ≡ take at buffer.old ++ encode_utf8_all (name_part style one row.now.unit) }
    ensures end { result ≡ at + length (encode_utf8_all (name_part style one row.now.unit)) }
{
    match style {
        Style::Long => put_long_name(buffer, at, row.unit, one),
        _ => put_name(buffer, at, row),
    }
}

#[inline(always)]
fn put_part(buffer: &mut [u8], at: usize, count: u64, row: &Printed, style: Style) -> usize
    requires right { row.now ≡ printed_row row.now.unit }
    requires some { 0 < count }
    requires start { at ≤ length buffer.old }
    requires room { length (with_part style (take at buffer.old) row.now.unit count) + 4
        ≤ length buffer.old }
    ensures text { take result buffer.new
        ≡ with_part style (take at buffer.old) row.now.unit count }
    ensures end { result ≤ length buffer.old }
{
    let start = put_gap(buffer, at, style);
    let end = put_count(buffer, start, count);
    put_name_in(buffer, end, row, count == 1, style)
}

/// Returns a set with the same parts for `nanos`. Below a day it has no unit longer than an hour,
/// which saves divisions.
#[inline(always)]
fn set_for(nanos: u64, set: Units) -> Units
    ensures { (style : Style) (bytes : List ℕ) (most : ℕ)
        → with_parts style bytes (chosen result units) most nanos
        ≡ with_parts style bytes (chosen set units) most nanos }
{
    if nanos < TimeUnit::Day.nanos() {
        return set.up_to(TimeUnit::Hour);
    }
    set
}

#[inline(never)]
fn put_parts(
    buffer: &mut [u8],
    at: usize,
    set: Units,
    most: usize,
    nanos: u64,
    style: Style,
) -> usize
    requires start { at ≤ length buffer.old }
    requires room { length (with_parts style (take at buffer.old) (chosen set units) most nanos) + 4
        ≤ length buffer.old }
    ensures text { take result buffer.new
        ≡ with_parts style (take at buffer.old) (chosen set units) most nanos }
    ensures end { result ≤ length buffer.old }
{
    let mut end = at;
    let mut parts = Breakdown::of(u128::from(nanos), set_for(nanos, set), most);
    while let Some((row, count)) = parts.next_part() {
        end = put_part(buffer, end, count as u64, row, style);
    }
    end
}

/// Writes a part and a space after it. If the count is 0, it returns `at`, so that the next part is
/// written over this one. A part with the count 0 is written too, since a branch that skips it is
/// hard to predict.
#[inline(always)]
fn put_spaced(buffer: &mut [u8], at: usize, count: u32, unit: TimeUnit) -> usize
    requires short { count < 1000 }
    requires room { at + 7 ≤ length buffer.old }
    requires spaced { take at buffer.old ≡ with_gap Short (take (at - 1) buffer.old) }
    ensures text { take (result - 1) buffer.new
        ≡ with_part Short (take (at - 1) buffer.old) unit count }
    ensures spaced { take result buffer.new ≡ with_gap Short (take (result - 1) buffer.new) }
    ensures end { result ≤ at + 7 }
{
    let part = &mut buffer[at..at + 7];
    let end = put_hundreds(part, 0, u64::from(count));
    let next = put_name(part, end, unit.printed());
    if count == 0 { at } else { at + next + 1 }
}

/// Writes the parts of these counts. The first count is that of the unit `UNITS[first]`.
#[inline(always)]
fn put_counts(buffer: &mut [u8], at: usize, first: usize, counts: &[u32]) -> usize
    requires short { All (λ n. n < 1000) counts.now }
    requires known { first + length counts.now ≤ length units }
    requires room { at + 7 * length counts.now ≤ length buffer.old }
    requires spaced { take at buffer.old ≡ with_gap Short (take (at - 1) buffer.old) }
    ensures text { take (result - 1) buffer.new
        ≡ with_counts Short (take (at - 1) buffer.old) (drop first units) counts.now }
    ensures spaced { take result buffer.new ≡ with_gap Short (take (result - 1) buffer.new) }
    ensures end { result ≤ at + 7 * length counts.now }
{
    let mut end = at;
    for (i, count) in counts.iter().enumerate() {
        end = put_spaced(buffer, end, *count, UNITS[first + i]);
    }
    end
}

#[inline(always)]
fn put_days(buffer: &mut [u8], secs: u64) -> (usize, u32)
    requires short { secs < 1000 * 365 * 86400 }
    requires room { 35 ≤ length buffer.old }
    ensures text { take (result.0 - 1) buffer.new
        ≡ with_counts Short [] units (counts_of (365 ∷ 91 ∷ 30 ∷ 7 ∷ 1 ∷ []) (secs / 86400)) }
    ensures spaced { take result.0 buffer.new ≡ with_gap Short (take (result.0 - 1) buffer.new) }
    ensures end { result.0 ≤ 19 }
    ensures rest { result.1 ≡ secs % 86400 }
{
    if secs < 24 * 3_600 {
        return (0, secs as u32);
    }
    let days = (secs / (24 * 3_600)) as u32;
    let after_years = days % 365;
    let after_quarters = after_years % 91;
    let after_months = after_quarters % 30;
    let counts = [
        days / 365,
        after_years / 91,
        after_quarters / 30,
        after_months / 7,
        after_months % 7,
    ];
    let end = put_counts(buffer, 0, 0, &counts);
    (end, (secs % (24 * 3_600)) as u32)
}

/// Writes the parts of a duration below 1,000 years. From the hour on, each count is computed from
/// the seconds after the days or from the nanoseconds after the seconds, so that none has to wait
/// for the count before it:
///
/// ```text
///  whole days          seconds of a day    nanoseconds of a second
/// +-------------------+-------------------+-------------------+
/// |  y  q  mon  w  d  |    h  min  s      |    ms  µs  ns     |
/// +-------------------+-------------------+-------------------+
/// ```
///
/// All parts are written, one after another, and each of them over a part with the count 0. So for
/// `1h 29ms` the buffer begins with these bytes, where `_` is a space:
///
/// ```text
/// count   bytes           the next part is written at
/// 1       1h_             3
/// 0       1h_0min_        3
/// 0       1h_0s_          3
/// 29      1h_29ms_        8
/// 0       1h_29ms_0µs_    8
/// 0       1h_29ms_0ns_    8, so the text has 7 bytes
/// ```
#[inline(never)]
fn put_whole(buffer: &mut [u8], d: Duration) -> usize
    requires short { as_nanos d < 1000 * nanos_of Year }
    requires room { 64 ≤ length buffer.old }
    ensures text { take result buffer.new
        ≡ with_counts Short [] units (counts_of unit_lengths (as_nanos d)) }
    ensures end { result ≤ length buffer.old }
{
    let nanos = d.subsec_nanos();
    let (at, secs) = put_days(buffer, d.as_secs());
    if at > 0 && secs == 0 && nanos == 0 {
        return at.saturating_sub(1);
    }
    let counts = [
        secs / 3_600,
        secs / 60 % 60,
        secs % 60,
        nanos / 1_000_000,
        nanos / 1_000 % 1_000,
        nanos % 1_000,
    ];
    let end = put_counts(buffer, at, TimeUnit::Hour.rank(), &counts);
    end.saturating_sub(1)
}

#[inline(always)]
fn put_first(buffer: &mut [u8], count: u128, row: &Printed, style: Style) -> usize
    requires right { row.now ≡ printed_row row.now.unit }
    requires some { 0 < count }
    requires room { length (with_part style [] row.now.unit count) + 4 ≤ length buffer.old }
    ensures text { take result buffer.new ≡ with_part style [] row.now.unit count }
    ensures end { result ≤ length buffer.old }
{
    let end = put_wide(buffer, 0, count);
    put_name_in(buffer, end, row, count == 1, style)
}

/// Writes the parts of a duration of 2^60 nanoseconds or more. After the first part, less than 2^60
/// nanoseconds are left.
#[inline(never)]
fn put_long(buffer: &mut [u8], set: Units, most: usize, d: Duration, style: Style) -> usize
    requires long { 2 ^ 60 ≤ as_nanos d }
    requires room { length (with_parts style [] (chosen set units) most (as_nanos d)) + 4
        ≤ length buffer.old }
    ensures text { take result buffer.new
        ≡ with_parts style [] (chosen set units) most (as_nanos d) }
    ensures end { result ≤ length buffer.old }
{
    let mut parts = Breakdown::of(d.as_nanos(), set, most);
    let Some((row, count)) = parts.next_part() else {
        return 0;
    };
    let end = put_first(buffer, count, row, style);
    put_parts(buffer, end, set, most - 1, parts.rest() as u64, style)
}

#[tactic(auto, using(crate::proofs::FormatLemmas::with_nothing))]
#[inline(always)]
fn put_within(buffer: &mut [u8], format: Format, d: Duration) -> usize
    requires room { most_len format.style + 4 ≤ length buffer.old }
    ensures text { take result buffer.new
        ≡ with_parts format.style [] (units_within format) format.parts (as_nanos d) }
    ensures end { result ≤ length buffer.old }
{
    // A duration of 0 has no parts.
    if d.is_zero() {
        return 0;
    }
    if d.as_secs() < 1_000 * 365 * 24 * 3_600 && format == Format::whole() {
        return put_whole(buffer, d);
    }
    // Less than 2^34 seconds are less than 2^64 nanoseconds.
    if d.as_secs() < 1 << 34 {
        let nanos = d.as_secs() * 1_000_000_000 + u64::from(d.subsec_nanos());
        return put_parts(buffer, 0, format.units, format.parts, nanos, format.style);
    }
    put_long(buffer, format.units, format.parts, d, format.style)
}

#[inline(always)]
fn put_zero(buffer: &mut [u8], unit: TimeUnit, style: Style) -> usize
    requires room { length (part_bytes style 0 unit) + 4 ≤ length buffer.old }
    ensures text { take result buffer.new ≡ part_bytes style 0 unit }
    ensures end { result ≡ length (part_bytes style 0 unit) }
{
    let end = put_digit(buffer, 0, 0);
    put_name_in(buffer, end, unit.printed(), false, style)
}

#[inline(always)]
#[tactic(auto, unfolding(crate::specs::Internal::PrintedBytes::digits))]
fn fill(d: Duration, format: Format, buffer: &mut [u8]) -> usize
    requires room { most_len format.style + 4 ≤ length buffer.old }
    ensures text { take result buffer.new ≡ encode_utf8_all
        (text_within format (counts_within (lengths_within format) format.parts (as_nanos d))) }
    ensures short { result ≤ most_len format.style }
    ensures utf8 { IsUtf8 (take result buffer.new) }
{
    let end = put_within(buffer, format, d);
    if end == 0 {
        return put_zero(buffer, format.zero_unit(), format.style);
    }
    end
}

#[inline(always)]
fn printed(buffer: &[u8], end: usize) -> &str
    requires inside { end ≤ length buffer.now }
    requires utf8 { IsUtf8 (take end buffer.now) }
    ensures { result.now ≡ take end buffer.now }
{
    // SAFETY: the bytes up to `end` are UTF-8, by the clause `utf8`.
    unsafe { std::str::from_utf8_unchecked(&buffer[..end]) }
}

/// Rounds a duration to one that prints whole in this format, and prints that one to the start of a
/// buffer, as [`write_format`] does. Returns the text. If `rounding` is `None`, the duration is not
/// rounded, and the rest is left out.
///
/// The result is `None` only for `Rounding::Up`, if no duration up to `Duration::MAX` prints whole
/// and is not below the given one. That is so for 1ns in a format without units or parts.
///
/// ```
/// use duration_str::{FORMAT_BUFFER_SIZE, Format, Rounding, write_rounded};
/// use std::time::Duration;
///
/// let length = Duration::new(7_199, 0); // 1h 59min 59s
/// let mut buffer = [0; FORMAT_BUFFER_SIZE];
/// let mut in_parts = |parts, rounding| {
///     let format = Format::whole().parts(parts);
///     write_rounded(&length, format, rounding, &mut buffer).map(str::to_string)
/// };
/// assert_eq!(in_parts(1, None).as_deref(), Some("1h"));
/// assert_eq!(in_parts(1, Some(Rounding::Down)).as_deref(), Some("1h"));
/// assert_eq!(in_parts(1, Some(Rounding::Nearest)).as_deref(), Some("2h"));
/// assert_eq!(in_parts(0, Some(Rounding::Up)), None);
/// ```
#[inline(always)]
#[must_use]
pub fn write_rounded<'b>(
    d: &Duration,
    format: Format,
    rounding: Option<Rounding>,
    buffer: &'b mut [u8; FORMAT_BUFFER_SIZE],
) -> Option<&'b str>
    ensures some { IfSome result (λ text.
        IsPrintedRounded rounding format (as_nanos d.now) (chars text.now)) }
    ensures none { IfNone result (NoneShown rounding format (as_nanos d.now)) }
    ensures short { IfSome result (λ text. length text.now ≤ most_len format.style) }
{
    let shown = shown(*d, format, rounding)?;
    Some(write_format(&shown, format, buffer))
}
