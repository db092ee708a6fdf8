//! The calls of the library for C, with slices and references in place of pointers.
//!
//! They allocate nothing. Those that read bytes refuse them if they are not UTF-8.
#![tactic(auto)]

ghost use Rattle.std.specs.Prelude.{◌≡◌, ℕ, ◌+◌, ◌<◌, ◌≤◌, ◌==◌, ◌∷◌, length, IsTrue, IsFalse, IfSome, IfNone, IsUtf8, take, drop};
ghost use Rattle.std.specs.Bool.{MatchBool};
ghost use Rattle.std.specs.Str.{chars};
ghost use Rattle.duration_str_base.specs.Options.{off};
ghost use Rattle.duration_str.specs.OtherResults.{Reads};
ghost use Rattle.duration_str_base.specs.Meaning.{meaning_of};
ghost use Rattle.duration_str_base.specs.Rules.{rules_of};
ghost use Rattle.duration_str_reading.specs.Reading.{IsRead};
ghost use Rattle.duration_str_printing.specs.Printing.{IsPrinted};
ghost use Rattle.duration_str_printing.specs.declared.printing.TheConstants.{MAX_PRINTED_LEN};
ghost use Rattle.duration_str_c.specs.Answers.{are_options, default_unit_of_bits, options_of_bits, rules_of_bits, IsAnswerTo};

pub mod answer;
pub mod breakdown;
pub mod format;
pub mod help;
pub mod message;
pub mod rounding;
pub mod unit;

use crate::answer::Answer;
use crate::message::refusal_of;
use duration_str::{
    Fault, HUMAN_BUFFER_SIZE, Options, Rules, TimeUnit, UNITS, parse_nanos,
    parse_nanos_specialized, write_human,
};
use std::time::Duration;

const NO_CALC: u32 = 1;

const LOWERCASE: u32 = 2;

const CN_UNIT: u32 = 4;

const REQUIRE_UNIT: u32 = 8;

const MORE_NAMES: u32 = 16;

/// The first of the bits that hold the default unit: its index in `UNITS` plus 1, or 0 if none is
/// named.
const DEFAULT_UNIT_SHIFT: u32 = 16;

/// All bits that belong to an option.
const OPTIONS: u32 = 0xF_001F;

pub(crate) fn options_of_bits(bits: u32) -> Options
    ensures { result ≡ options_of_bits bits }
{
    Options {
        no_calc: bits & NO_CALC != 0,
        lowercase: bits & LOWERCASE != 0,
        cn_unit: bits & CN_UNIT != 0,
    }
}

pub(crate) fn are_options(bits: u32) -> bool
    ensures { result ≡ are_options bits }
{
    let number = bits >> DEFAULT_UNIT_SHIFT;
    bits & OPTIONS == bits
        && (number == 0
            || number as usize <= UNITS.len() && bits & NO_CALC != 0 && bits & REQUIRE_UNIT == 0)
}

fn default_unit_of_bits(bits: u32) -> Option<TimeUnit>
    ensures { result ≡ default_unit_of_bits bits }
{
    if bits & REQUIRE_UNIT != 0 {
        return None;
    }
    let number = bits >> DEFAULT_UNIT_SHIFT;
    if number == 0 {
        return Some(TimeUnit::Second);
    }
    UNITS.get(number as usize - 1).copied()
}

/// Reads a text with all options off, and writes its value in nanoseconds to `nanos`. Returns true
/// if the text is read. If it is refused, returns false and leaves `nanos` unchanged.
pub fn duration_str_parse(text: &[u8], nanos: &mut u64) -> bool
    ensures read { IsTrue result → IsRead (rules_of off) (chars text.now) nanos.new }
    ensures accepts { IsUtf8 text.now
        → (value : ℕ) → IsRead (rules_of off) (chars text.now) value → IsTrue result }
    ensures utf8 { IsTrue result → IsUtf8 text.now }
    ensures refused { IsFalse result → nanos.new ≡ nanos.old }
{
    let Some(text) = text_of(text) else {
        return false;
    };
    match parse_nanos_specialized(text, Rules::of(Options::off())) {
        Ok(value) => {
            *nanos = value;
            true
        }
        Err(_) => false,
    }
}

/// Prints a duration of this many nanoseconds to the start of the buffer, with a zero byte after
/// it. Returns the length of the text in bytes, without the zero. The rest of the buffer is
/// unchanged.
pub fn duration_str_format(nanos: u64, buffer: &mut [u8; HUMAN_BUFFER_SIZE]) -> usize
    ensures text { IsPrinted nanos (chars (take result buffer.new)) }
    ensures utf8 { IsUtf8 (take result buffer.new) }
    ensures rest { drop result buffer.new ≡ 0 ∷ drop (result + 1) buffer.old }
    ensures short { result ≤ MAX_PRINTED_LEN }
{
    let mut printed = [0; HUMAN_BUFFER_SIZE];
    put(
        write_human(&Duration::from_nanos(nanos), &mut printed),
        buffer,
    )
}

#[inline(always)]
pub(crate) fn put(text: &str, buffer: &mut [u8]) -> usize
    requires room { length text.now < length buffer.old }
    ensures text { take result buffer.new ≡ text.now }
    ensures rest { drop result buffer.new ≡ 0 ∷ drop (result + 1) buffer.old }
    ensures end { result ≡ length text.now }
{
    let end = text.len();
    buffer[..end].copy_from_slice(text.as_bytes());
    buffer[end] = 0;
    end
}

/// Reads a text under the options whose bits are set, and writes the answer. Returns true if the
/// text is read.
pub fn duration_str_parse_with(text: &[u8], options: u32, answer: &mut Answer) -> bool
    ensures answers { IsAnswerTo options text.now answer.new }
    ensures read { result ≡ (answer.new.cause == 0) }
{
    let _ = refusal_of(text, options, answer);
    answer.cause == 0
}

#[inline(always)]
pub(crate) fn read_by(text: &str, bits: u32) -> Result<u64, Fault<'_>>
    ensures { Reads (rules_of_bits bits) text.now result }
{
    if bits == 0 {
        return parse_nanos(text, Rules::of(Options::off()));
    }
    read_chosen(text, rules_of_bits(bits))
}

#[inline(always)]
pub(crate) fn rules_of_bits(bits: u32) -> Rules
    ensures { meaning_of result ≡ rules_of_bits bits }
{
    let own = Rules::of(options_of_bits(bits)).default_unit(default_unit_of_bits(bits));
    let more = bits & MORE_NAMES != 0;
    if more { own.more_names() } else { own }
}

/// One copy of the reader serves all options, so that the library is small.
#[inline(never)]
fn read_chosen(text: &str, rules: Rules) -> Result<u64, Fault<'_>>
    ensures { Reads (meaning_of rules) text.now result }
{
    parse_nanos_specialized(text, rules)
}

/// The version: the major number times a million, plus the minor number times a thousand, plus the
/// patch number.
pub fn duration_str_version() -> u32
    ensures { result ≡ 19_000 }
{
    19_000
}

/// Returns the bytes as a text, or `None` if they are not UTF-8. It first tests for ASCII, since
/// most texts are ASCII.
#[inline(always)]
pub(crate) fn text_of(bytes: &[u8]) -> Option<&str>
    ensures text { IfSome result (λ text. (text.now ≡ bytes.now) × IsUtf8 bytes.now) }
    ensures not_text { IfNone result (¬ (IsUtf8 bytes.now)) }
{
    if bytes.is_ascii() || is_utf8(bytes) {
        // SAFETY: the bytes are UTF-8, by the tests above.
        Some(unsafe { str::from_utf8_unchecked(bytes) })
    } else {
        None
    }
}

#[cold]
#[inline(never)]
fn is_utf8(bytes: &[u8]) -> bool
    ensures { MatchBool result (IsUtf8 bytes.now) (¬ (IsUtf8 bytes.now)) }
{
    str::from_utf8(bytes).is_ok()
}
