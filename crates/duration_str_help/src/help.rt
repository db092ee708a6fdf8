//! The help for a refusal: what a user may have meant, or should write instead.
ghost use Rattle.std.specs.Prelude.{◌≡◌, ◌≤◌, ◌+◌, ◌-◌, ◌++◌, ◌==◌, ◌||◌, slice_index, length, take, map, encode_utf8_all, None, Some, if◌then◌else◌};
ghost use Rattle.std.specs.Char.{to_ascii_lowercase};
ghost use Rattle.std.specs.List.{list_all};
ghost use Rattle.std.specs.Str.{chars, bytes_eq, IsCharBoundary};
ghost use Rattle.duration_str_base.specs.Buffers.{IsInFront};
ghost use Rattle.duration_str_base.specs.Text.{is_blank, is_digit};
ghost use Rattle.duration_str_base.specs.Internal.Positions.{ahead};
ghost use Rattle.duration_str_help.specs.Help.{is_letter, is_like, first_piece, begins_with_letter, near_unit, unit_help, first_help, digit_help, sign_help, help_at, help_name, missing_unit_help, is_unknown_unit, syntax_help, overflow_help, help_number, help_words};
ghost use Rattle.duration_str_help.specs.Internal.Words.{fixed_words};
ghost use Rattle.duration_str_help.specs.declared.help.Help.TheVariants.{DidYouMean};

use crate::characters::is_letter;
use duration_str_base::blank::is_blank;
use duration_str_base::buffer::put;
use duration_str_base::cause::Expected;
use duration_str_base::more_names;
use duration_str_base::more_names::added_unit;
use duration_str_base::options::Options;
use duration_str_base::packed::packed_word;
use duration_str_base::slice::{range_from, range_to};
use duration_str_base::unit::TimeUnit;

/// What a user may have meant by a refused text, or should write instead. The fault's line ends
/// with the words of its help.
///
/// ```
/// use duration_str::{Help, Options, TimeUnit, parse_with};
///
/// let help = |text| parse_with(text, Options::off()).unwrap_err().help();
/// assert_eq!(help("5 mins"), Some(Help::DidYouMean(TimeUnit::Minute)));
/// assert_eq!(help("-5m"), Some(Help::Negative));
/// assert_eq!(help("1m+"), None);
/// ```
#[derive(Clone, Copy, Debug, PartialEq, Eq, Hash)]
#[non_exhaustive]
pub enum Help {
    /// The word at the place is no unit, but is near one, such as `mins` is near `min`.
    DidYouMean(TimeUnit),
    /// The word at the place is no unit, and is near none.
    Units,
    /// A number has a fraction, such as in `1.5s`.
    Fraction,
    /// A number has other characters than digits, such as in `1,000s` and `1e3s`.
    DigitsOnly,
    /// A number is followed by a colon and another number, as in a clock time.
    ClockTime,
    /// The text begins with a minus sign, as a negative number does.
    Negative,
    /// The text begins with a plus sign.
    LeadingPlus,
    /// The text begins as a duration of ISO 8601 does, such as `PT5M`.
    Iso8601,
    /// After a unit comes a comma, `&` or `and`, such as in `1h, 30m`.
    OneDuration,
    /// After a unit comes a point, such as in `5 min.`.
    NoPoint,
    /// A bracket is at the place, such as in `(1h + 30m) * 2`.
    Brackets,
    /// A slash is at the place, such as in `1h / 2`.
    Division,
    /// The text begins with a quotation mark.
    QuotationMarks,
    /// A number lacks its unit, which is required.
    MissingUnit,
    /// A zero lacks its unit, which is required.
    Zero,
    /// A number without a unit is too large in the default unit.
    LargeNumber,
}

impl Help {
    /// Returns the help's number, by which programs in other languages know it. The numbers are 1
    /// for `DidYouMean`, 2 for `Units` and so on, in the order of the enum.
    ///
    /// ```
    /// use duration_str::Help;
    ///
    /// assert_eq!(Help::Units.number(), 2);
    /// ```
    #[must_use]
    pub const fn number(self) -> u32
        ensures { result ≡ help_number self }
    {
        match self {
            Help::DidYouMean(_) => 1,
            Help::Units => 2,
            Help::Fraction => 3,
            Help::DigitsOnly => 4,
            Help::ClockTime => 5,
            Help::Negative => 6,
            Help::LeadingPlus => 7,
            Help::Iso8601 => 8,
            Help::OneDuration => 9,
            Help::NoPoint => 10,
            Help::Brackets => 11,
            Help::Division => 12,
            Help::QuotationMarks => 13,
            Help::MissingUnit => 14,
            Help::Zero => 15,
            Help::LargeNumber => 16,
        }
    }
}

/// The most characters of a text that a quote shows.
pub const MOST_SHOWN: usize = 40;

/// What stands at the place of a syntax fault.
#[derive(Clone, Copy)]
pub struct Found<'a> {
    pub piece: &'a str,
    /// Whether the piece is taken for a word that should name a unit.
    pub is_unknown_unit: bool,
    pub help: Option<Help>,
}

/// Returns what stands at the place. It is not inline, so that the line, `Fault::help` and
/// `Fault::mend` share one copy.
pub fn found_at(text: &str, place: usize, expected: Expected) -> Found<'_>
    requires { IsCharBoundary text.now place }
    ensures piece { chars result.piece.now ≡ first_piece (ahead text.now place) }
    ensures bytes { result.piece.now ≡ encode_utf8_all (first_piece (ahead text.now place)) }
    ensures unknown { result.is_unknown_unit
        ≡ is_unknown_unit expected (first_piece (ahead text.now place)) }
    ensures help { result.help
        ≡ syntax_help text.now place expected (first_piece (ahead text.now place)) }
{
    let piece = first_piece(range_from(text, place));
    let is_unknown_unit = is_unknown_unit(expected, piece);
    if let Some(unit) = near_unit_if(is_unknown_unit, piece) {
        return Found {
            piece,
            is_unknown_unit: true,
            help: Some(Help::DidYouMean(unit)),
        };
    }
    let text = text.as_bytes();
    let help = help_at(expected, text, place, piece);
    Found {
        piece,
        is_unknown_unit,
        help: far_help(is_unknown_unit, expected, text, help),
    }
}

/// Returns whether a piece is taken for a word that should name a unit.
#[inline(always)]
fn is_unknown_unit(expected: Expected, piece: &str) -> bool
    ensures { result ≡ is_unknown_unit expected (chars piece.now) }
{
    expected.unit_word && begins_with_letter(piece)
}

fn near_unit_if(is_unknown_unit: bool, piece: &str) -> Option<TimeUnit>
    ensures { result ≡ (if is_unknown_unit then near_unit (chars piece.now) else None) }
{
    if is_unknown_unit {
        near_unit(piece)
    } else {
        None
    }
}

/// Returns the help if the piece is near no unit, given the help for its place.
fn far_help(
    is_unknown_unit: bool,
    expected: Expected,
    text: &[u8],
    help: Option<Help>,
) -> Option<Help>
    ensures { result ≡ (if is_unknown_unit then Some (unit_help None help)
        else missing_unit_help expected text.now help) }
{
    if is_unknown_unit {
        Some(help.unwrap_or(Help::Units))
    } else {
        missing_unit_help(expected, text, help)
    }
}

pub fn overflow_help(text: &[u8]) -> Option<Help>
    ensures { result ≡ overflow_help text.now }
{
    if is_number(text) {
        Some(Help::LargeNumber)
    } else {
        None
    }
}

fn first_piece(text: &str) -> &str
    ensures piece { chars result.now ≡ first_piece (chars text.now) }
    ensures short { length result.now ≤ length text.now }
{
    let mut chars = text.chars();
    let Some(first) = chars.next() else {
        return text;
    };
    let mut rest = chars.as_str();
    let mut left = MOST_SHOWN;
    while let Some(c) = chars.next() {
        if left == 0 || !is_like(first, c) {
            break;
        }
        rest = chars.as_str();
        left -= 1;
    }
    range_to(text, text.len() - rest.len())
}

fn is_like(first: char, c: char) -> bool
    ensures { result ≡ is_like first c }
{
    c.is_ascii_digit() && first.is_ascii_digit() || is_letter(c) && is_letter(first)
}

fn begins_with_letter(text: &str) -> bool
    ensures { result ≡ begins_with_letter (chars text.now) }
{
    match text.chars().next() {
        Some(c) => is_letter(c),
        None => false,
    }
}

/// Returns the unit for which people write a word that the library's own table lacks.
fn near_unit(word: &str) -> Option<TimeUnit>
    ensures { result ≡ near_unit (chars word.now) }
{
    if word == "mo" || word == "mos" {
        return Some(TimeUnit::Month);
    }
    let (packed, greek) = packed_word(word, Options::off(), true)?;
    if greek {
        more_names::unit_of_packed(packed)
    } else {
        added_unit(packed)
    }
}

pub const fn help_name(unit: TimeUnit) -> &'static str
    ensures name { result.now ≡ encode_utf8_all (help_name unit) }
    ensures short { length result.now ≤ 3 }
{
    match unit {
        TimeUnit::MicroSecond => "us",
        other => other.name(),
    }
}

/// Returns the help for the piece at the place. The place is after a unit exactly if both a number
/// and the end could stand there.
fn help_at(expected: Expected, text: &[u8], place: usize, piece: &str) -> Option<Help>
    requires { place + length piece.now ≤ length text.now }
    ensures { result ≡ help_at expected text.now place piece.now }
{
    let before = &text[..place];
    let last = last_byte(before);
    let next = byte_at(text, place + piece.len());
    let is_after_unit = expected.number && expected.text_end;
    if is_after_unit && (piece == "," || piece == "&" || is_word(piece, "and")) {
        Some(Help::OneDuration)
    } else if piece == "." && (last.is_ascii_alphabetic() || last >= 0x80) {
        Some(Help::NoPoint)
    } else if piece == "." && next.is_ascii_digit() {
        Some(Help::Fraction)
    } else if are_blank(before) {
        first_help(piece, next)
    } else if last.is_ascii_digit() {
        digit_help(piece, next)
    } else {
        sign_help(piece)
    }
}

fn first_help(piece: &str, next: u8) -> Option<Help>
    ensures { result ≡ first_help piece.now next }
{
    let is_signed = next.is_ascii_digit() || next == b'.';
    if is_signed && piece == "-" {
        Some(Help::Negative)
    } else if is_signed && piece == "+" {
        Some(Help::LeadingPlus)
    } else if next.is_ascii_digit() && (is_word(piece, "p") || is_word(piece, "pt")) {
        Some(Help::Iso8601)
    } else if piece == "\"" || piece == "'" {
        Some(Help::QuotationMarks)
    } else {
        sign_help(piece)
    }
}

fn digit_help(piece: &str, next: u8) -> Option<Help>
    ensures { result ≡ digit_help piece.now next }
{
    let is_between = next.is_ascii_digit();
    let is_exponent = (is_between || next == b'+' || next == b'-') && is_word(piece, "e");
    if is_exponent || is_between && (piece == "," || piece == "_" || piece == "'") {
        Some(Help::DigitsOnly)
    } else if is_between && piece == ":" {
        Some(Help::ClockTime)
    } else {
        sign_help(piece)
    }
}

/// Returns the help for a sign, wherever it is.
fn sign_help(piece: &str) -> Option<Help>
    ensures { result ≡ sign_help piece.now }
{
    if piece == "(" || piece == ")" {
        Some(Help::Brackets)
    } else if piece == "/" {
        Some(Help::Division)
    } else {
        None
    }
}

fn missing_unit_help(expected: Expected, text: &[u8], help: Option<Help>) -> Option<Help>
    ensures { result ≡ missing_unit_help expected text.now help }
{
    let lacks_unit = expected.unit_word && !expected.operator && !expected.text_end;
    if help.is_some() || !lacks_unit {
        help
    } else if is_zero(text) {
        Some(Help::Zero)
    } else {
        Some(Help::MissingUnit)
    }
}

fn is_word(word: &str, name: &str) -> bool
    ensures { result ≡ bytes_eq (map to_ascii_lowercase word.now)
        (map to_ascii_lowercase name.now) }
{
    word.eq_ignore_ascii_case(name)
}

fn are_blank(bytes: &[u8]) -> bool
    ensures { result ≡ list_all is_blank bytes.now }
{
    bytes.iter().all(|b| is_blank(char::from(*b)))
}

fn is_number(bytes: &[u8]) -> bool
    ensures { result ≡ list_all (λ b. is_digit b || is_blank b) bytes.now }
{
    bytes
        .iter()
        .all(|b| b.is_ascii_digit() || is_blank(char::from(*b)))
}

fn is_zero(bytes: &[u8]) -> bool
    ensures { result ≡ list_all (λ b. b == 48 || is_blank b) bytes.now }
{
    bytes.iter().all(|b| *b == b'0' || is_blank(char::from(*b)))
}

fn last_byte(bytes: &[u8]) -> u8
    ensures { result ≡ slice_index bytes.now (length bytes.now - 1) }
{
    bytes.last().copied().unwrap_or(0)
}

fn byte_at(bytes: &[u8], index: usize) -> u8
    ensures { result ≡ slice_index bytes.now index }
{
    bytes.get(index).copied().unwrap_or(0)
}

/// Writes the words with which a help ends the line after the first `at` bytes of the buffer.
/// Returns where they end, or `None` if there is no room for them.
pub fn put_help_words(buffer: &mut [u8], at: usize, help: Help) -> Option<usize>
    requires { at ≤ length buffer.old }
    ensures { IsInFront (take at buffer.old ++ help_words help) result buffer.new }
{
    match help {
        Help::DidYouMean(unit) => put_near_words(buffer, at, unit),
        other => put(buffer, at, fixed_words(other).as_bytes()),
    }
}

/// Writes the words of `DidYouMean`. It is not inline, so that the words of other helps take less
/// time.
#[inline(never)]
fn put_near_words(buffer: &mut [u8], at: usize, unit: TimeUnit) -> Option<usize>
    requires { at ≤ length buffer.old }
    ensures { IsInFront (take at buffer.old ++ help_words (DidYouMean unit)) result buffer.new }
{
    let name = put(buffer, at, b" (did you mean \"")?;
    let end = put_name(buffer, name, unit)?;
    put(buffer, end, b"\"?)")
}

/// Writes a unit's name after the first `at` bytes of the buffer. It is the name of `help_name`,
/// taken from the table of printed names, which every program that reads contains anyway.
#[inline(never)]
pub fn put_name(buffer: &mut [u8], at: usize, unit: TimeUnit) -> Option<usize>
    requires { at ≤ length buffer.old }
    ensures { IsInFront (take at buffer.old ++ encode_utf8_all (help_name unit)) result buffer.new }
{
    if let TimeUnit::MicroSecond = unit {
        return put(buffer, at, b"us");
    }
    let row = unit.printed();
    put(buffer, at, &row.letters[..usize::from(row.width)])
}

/// Returns the words of a help. For `DidYouMean`, whose words name a unit, it returns the empty
/// text.
fn fixed_words(help: Help) -> &'static str
    ensures { result.now ≡ fixed_words help }
{
    match help {
        Help::DidYouMean(_) => "",
        Help::Units => " (write y, q, mon, w, d, h, min, s, ms, us or ns)",
        Help::Fraction => " (numbers have digits only)",
        Help::DigitsOnly => " (numbers have digits only)",
        Help::ClockTime => " (clock times are not read: write 1h 30m or 1m 30s)",
        Help::Negative => " (negative durations are not read)",
        Help::LeadingPlus => r#" (a leading "+" is not read)"#,
        Help::Iso8601 => " (ISO 8601 is not read: write 1mon 30m, for example)",
        Help::OneDuration => r#" (one duration is read, without "," or "and")"#,
        Help::NoPoint => " (units have no point)",
        Help::Brackets => " (brackets are not read)",
        Help::Division => " (division is not read)",
        Help::QuotationMarks => " (quotation marks are not read)",
        Help::MissingUnit => " (write the number's unit: y, q, mon, w, d, h, min, s, ms, us or ns)",
        Help::Zero => " (write 0s)",
        Help::LargeNumber => " (write the number's unit, such as ns)",
    }
}
