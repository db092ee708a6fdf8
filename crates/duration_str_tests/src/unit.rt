ghost use Rattle.std.specs.Prelude.{◌≡◌, ◌<◌, chars, length, IsTrue};
ghost use Rattle.std.specs.Char.{is_ascii_digit};
ghost use Rattle.std.specs.List.{list_all};

use crate::assertions::{holds, holds_in_memory};
use crate::comparisons::prints;
use crate::shared::OFF;
use duration_str::TimeUnit::{
    Day, Hour, MicroSecond, MilliSecond, Minute, Month, NanoSecond, Quarter, Second, Week, Year,
};
use duration_str::{Cause, CondUnit, TimeUnit, Token, Tokens, What, parse_looked};
use std::alloc::{AllocError, Global};

/// Each unit with its length in nanoseconds and its printed name.
static TABLE: [(TimeUnit, u64, &str); 11] = [
    (Year, 31_536_000_000_000_000, "y"),
    (Quarter, 7_862_400_000_000_000, "q"),
    (Month, 2_592_000_000_000_000, "mon"),
    (Week, 604_800_000_000_000, "w"),
    (Day, 86_400_000_000_000, "d"),
    (Hour, 3_600_000_000_000, "h"),
    (Minute, 60_000_000_000, "min"),
    (Second, 1_000_000_000, "s"),
    (MilliSecond, 1_000_000, "ms"),
    (MicroSecond, 1_000, "\u{b5}s"),
    (NanoSecond, 1, "ns"),
];

#[test]
fn measures_and_prints_units(rt: HostRuntime) {
    for &(unit, nanos, name) in &TABLE {
        holds(&rt, name, unit.nanos() == nanos);
        holds_in_memory(&rt, name, prints(rt.alloc(), &unit, name));
    }
    assert!(rt; TimeUnit::default() == TimeUnit::Second);
}

#[tactic(auto)]
fn are_digits(text: &str) -> bool
    ensures { result ≡ list_all is_ascii_digit (chars text.now) }
{
    text.chars().all(|c| c.is_ascii_digit())
}

#[tactic(auto)]
fn has_characters(text: &str) -> bool
    ensures { IsTrue result → 0 < length (chars text.now) }
{
    text.chars().next().is_some()
}

#[test]
fn refuses_terms_without_a_place(rt: HostRuntime) {
    for (number, cause) in [
        (
            "99999999999999999999",
            Cause::NumberTooLarge { place: None },
        ),
        ("600", Cause::Overflow { place: None }),
    ] {
        assert!(rt; has_characters(number) && are_digits(number));
        holds(&rt, number, TimeUnit::Year.value(number) == Err(cause));
    }
}

fn are_padded(alloc: Global) -> Result<bool, AllocError> {
    let padded = format!(in alloc; "{:>4}|{:.^5}", TimeUnit::Month, CondUnit::Plus)?;
    Ok(padded.as_str() == " mon|..+..")
}

#[test]
fn pads_units_and_operators(rt: HostRuntime) {
    holds_in_memory(&rt, "padded", are_padded(rt.alloc()));
}

#[test]
fn knows_and_prints_operators(rt: HostRuntime) {
    for &(c, operator, sign) in &[('+', CondUnit::Plus, "+"), ('*', CondUnit::Star, "*")] {
        holds(&rt, sign, CondUnit::from_char(c) == Some(operator));
        holds_in_memory(&rt, sign, prints(rt.alloc(), &operator, sign));
    }
    for &c in &['-', '/', '1', 'm', ' ', '\u{ff0b}'] {
        assert!(rt; CondUnit::from_char(c).is_none(), "{c}");
    }
}

static WORDS: [(&str, TimeUnit); 11] = [
    ("y", Year),
    ("q", Quarter),
    ("mon", Month),
    ("w", Week),
    ("d", Day),
    ("h", Hour),
    ("m", Minute),
    ("s", Second),
    ("ms", MilliSecond),
    ("\u{b5}s", MicroSecond),
    ("ns", NanoSecond),
];

#[test]
fn knows_the_words(rt: HostRuntime) {
    for &(word, unit) in &WORDS {
        holds(&rt, word, TimeUnit::from_word(word, OFF) == Some(unit));
    }
    for &word in &["nys", "", "mxyz", "\u{b5}"] {
        holds(&rt, word, TimeUnit::from_word(word, OFF).is_none());
    }
}

#[test]
fn cuts_into_tokens(rt: HostRuntime) {
    let mut tokens = Tokens::new("m123", OFF);
    for &(start, text, what) in &[(0, "m", What::Word(Some(Minute))), (1, "123", What::Number)] {
        let token = Token { start, text, what };
        holds(&rt, text, tokens.next() == Some(token));
    }
    holds(&rt, "m123", tokens.next().is_none());
}

fn is_looked_at(text: &str, count: u64) -> bool {
    let mut tokens = Tokens::new(text, OFF);
    while tokens.next().is_some() {}
    tokens.looked() == count && parse_looked(text, OFF).1 == count
}

#[test]
fn looks_at_each_character_once(rt: HostRuntime) {
    for &(text, all) in &[
        ("3m 13s 29ms", 11),
        ("   ", 3),
        ("1\u{b5}s \u{5206}", 5),
        ("", 0),
    ] {
        holds(&rt, text, is_looked_at(text, all));
    }
}
