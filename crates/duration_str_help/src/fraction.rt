//! The term to write instead of a number with a fraction, such as `90min` for `1.5h`.
ghost use Rattle.std.specs.Prelude.{◌≡◌, ◌≢◌, ◌^◌, ◌<◌, ◌+◌, ◌*◌, ◌%◌, ◌==◌, length, take, IfSome, IfNone, IsTrue};
ghost use Rattle.std.specs.List.{list_all, prefix_len};
ghost use Rattle.std.specs.Str.{chars, IsCharBoundary};
ghost use Rattle.duration_str_help.specs.Fraction.{as_term, end_run, longest_whole, nanos_of_fraction};
ghost use Rattle.duration_str_help.specs.Internal.Mends.{IsCutOut, offered_unit};
ghost use Rattle.duration_str_base.specs.Internal.Numbers.{u64_from};
ghost use Rattle.duration_str_base.specs.Meaning.{meaning_of, table_of};
ghost use Rattle.duration_str_help.specs.Mends.{can_end_number, fraction_replacement, meant_unit, unit_ahead};
ghost use Rattle.duration_str_help.specs.Help.{near_unit};
ghost use Rattle.duration_str_base.specs.Rules.{unit_of_word};
ghost use Rattle.duration_str_base.specs.Text.{is_blank, is_digit, number_of};

use crate::help::{Help, found_at};
use crate::suggestion::{Replacement, Suggestion};
use duration_str_base::blank::is_blank;
use duration_str_base::cause::Expected;
use duration_str_base::operator::CondUnit;
use duration_str_base::packed::packed_word;
use duration_str_base::rules::{Rules, unit_table};
use duration_str_base::slice::range_from;
use duration_str_base::table::UnitTable;
use duration_str_base::unit::{TimeUnit, UNITS};

/// Returns what to replace for the number whose point is at the place.
pub fn fraction_replacement(
    text: &str,
    place: usize,
    expected: Expected,
    rules: Rules,
) -> Option<Replacement>
    requires { IsCharBoundary text.now place }
    ensures replacement { result ≡ fraction_replacement (meaning_of rules) text.now place expected }
    ensures cut { IfSome result (IsCutOut text.now) }
{
    let bytes = text.as_bytes();
    let whole = last_digits(&bytes[..place]);
    if whole.is_empty() && !expected.number {
        return None;
    }
    if place == bytes.len() {
        return None;
    }
    let decimals = first_digits(&bytes[place + 1..]);
    if decimals.is_empty() {
        return None;
    }
    let end = place + 1 + decimals.len();
    let (unit, more) = unit_ahead(range_from(text, end), rules)?;
    let nanos = nanos_of_fraction(whole, decimals, unit_table(rules).nanos(unit))?;
    Some(Replacement {
        start: place - whole.len(),
        end: end + more,
        suggestion: as_term(unit_table(rules), unit, nanos),
    })
}

/// Returns the digits that the bytes end with.
fn last_digits(bytes: &[u8]) -> &[u8]
    ensures { result.now ≡ end_run is_digit bytes.now }
{
    let mut start = bytes.len();
    while start > 0 && bytes[start - 1].is_ascii_digit() {
        start -= 1;
    }
    &bytes[start..]
}

/// Returns the digits that the bytes begin with.
pub fn first_digits(bytes: &[u8]) -> &[u8]
    ensures { result.now ≡ take (prefix_len is_digit bytes.now) bytes.now }
{
    let mut len = 0;
    while len < bytes.len() && bytes[len].is_ascii_digit() {
        len += 1;
    }
    &bytes[..len]
}

/// Returns the unit of the number before this text, and the length of the blanks and the word that
/// name it. The length is 0 if the number has the default unit.
fn unit_ahead(text: &str, rules: Rules) -> Option<(TimeUnit, usize)>
    ensures unit { result ≡ unit_ahead (meaning_of rules) text.now }
    ensures boundary { IfSome result (λ found. IsCharBoundary text.now found.1) }
{
    let blanks = blanks_len(text.as_bytes());
    // This asks as for a syntax fault at which only a unit could stand. Letters there are then said
    // to be no unit, but here they can name one.
    let found = found_at(text, blanks, UNIT_ALONE);
    if found.is_unknown_unit {
        let unit = meant_unit(found.piece, found.help, rules)?;
        return Some((unit, blanks + found.piece.len()));
    }
    if !can_end_number(range_from(text, blanks).as_bytes(), rules) {
        return None;
    }
    Some((rules.default_unit?, 0))
}

const UNIT_ALONE: Expected = Expected {
    number: false,
    unit_word: true,
    operator: false,
    text_end: false,
};

/// Returns how many blanks the bytes begin with.
fn blanks_len(bytes: &[u8]) -> usize
    ensures { result ≡ prefix_len is_blank bytes.now }
{
    let mut len = 0;
    while len < bytes.len() && is_blank(char::from(bytes[len])) {
        len += 1;
    }
    len
}

/// Returns the unit that a word names, or otherwise the unit that it is near, which is in its help.
fn meant_unit(word: &str, help: Option<Help>, rules: Rules) -> Option<TimeUnit>
    requires { offered_unit help ≡ near_unit (chars word.now) }
    ensures { result ≡ meant_unit (meaning_of rules) (chars word.now) }
{
    match (named_unit(word, rules), help) {
        (Some(unit), _) | (None, Some(Help::DidYouMean(unit))) => Some(unit),
        _ => None,
    }
}

fn named_unit(word: &str, rules: Rules) -> Option<TimeUnit>
    ensures { result ≡ unit_of_word (meaning_of rules) (chars word.now) }
{
    let (packed, _) = packed_word(word, rules.options, false)?;
    unit_table(rules).unit_of_packed(packed)
}

/// Returns whether a number without a unit can stand before these bytes.
fn can_end_number(bytes: &[u8], rules: Rules) -> bool
    ensures { result ≡ can_end_number (meaning_of rules) bytes.now }
{
    match bytes.first() {
        None => true,
        Some(b) => !rules.options.no_calc && CondUnit::from_char(char::from(*b)).is_some(),
    }
}

/// Returns the nanoseconds of a number with these digits before and after its point, if they are a
/// whole number below 2^64.
fn nanos_of_fraction(whole: &[u8], decimals: &[u8], unit_nanos: u64) -> Option<u64>
    requires whole { IsTrue (list_all is_digit whole.now) }
    requires decimals { IsTrue (list_all is_digit decimals.now) }
    requires long { 0 < unit_nanos }
    requires short { unit_nanos * 10 < 2 ^ 64 }
    ensures { result ≡ nanos_of_fraction whole.now decimals.now unit_nanos }
{
    let after = nanos_after_point(decimals, unit_nanos)?;
    let number = number_of(whole)?;
    // In WebAssembly `checked_mul` would be a call.
    if number > (u64::MAX - after) / unit_nanos {
        None
    } else {
        Some(number * unit_nanos + after)
    }
}

/// Returns the nanoseconds of the digits after a point, if they are a whole number. From the last
/// digit to the first, it adds the digit's nanoseconds and divides by 10. So no number is longer
/// than ten units, however many digits there are.
fn nanos_after_point(decimals: &[u8], unit_nanos: u64) -> Option<u64>
    requires decimals { IsTrue (list_all is_digit decimals.now) }
    requires short { unit_nanos * 10 < 2 ^ 64 }
    ensures some { IfSome result (λ nanos.
        nanos * 10 ^ length decimals.now ≡ number_of decimals.now * unit_nanos) }
    ensures none { IfNone result
        (number_of decimals.now * unit_nanos % 10 ^ length decimals.now ≢ 0) }
{
    let mut nanos = 0;
    let mut start = decimals.len();
    while start > 0 {
        start -= 1;
        let tenths = nanos + u64::from(decimals[start] - b'0') * unit_nanos;
        if tenths % 10 != 0 {
            return None;
        }
        nanos = tenths / 10;
    }
    Some(nanos)
}

/// Returns the number that the digits write, if it is below 2^64.
fn number_of(digits: &[u8]) -> Option<u64>
    requires { IsTrue (list_all is_digit digits.now) }
    ensures { result ≡ u64_from (number_of digits.now) }
{
    let mut number = 0u64;
    for b in digits {
        let digit = u64::from(*b - b'0');
        // In WebAssembly `checked_mul` would be a call.
        if number > (u64::MAX - digit) / 10 {
            return None;
        }
        number = number * 10 + digit;
    }
    Some(number)
}

/// Returns the nanoseconds as one term. Its unit is the longest that divides them and is not longer
/// than this one.
fn as_term(table: UnitTable, unit: TimeUnit, nanos: u64) -> Suggestion
    ensures { result ≡ as_term (table_of table) unit nanos }
{
    let longest = longest_whole(table, unit, nanos);
    Suggestion {
        count: Some(nanos / table.nanos(longest)),
        unit: Some(longest),
    }
}

fn longest_whole(table: UnitTable, unit: TimeUnit, nanos: u64) -> TimeUnit
    ensures { result ≡ longest_whole (table_of table) unit nanos }
{
    // No unit from this one on is longer than it.
    for longest in &UNITS[unit.rank()..] {
        if nanos % table.nanos(*longest) == 0 {
            return *longest;
        }
    }
    TimeUnit::NanoSecond
}
