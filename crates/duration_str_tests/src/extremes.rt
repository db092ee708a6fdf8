use crate::assertions::{holds, holds_in_memory};
use crate::comparisons::{is_fault_at, is_value};
use crate::refusals::{is_caused, names_token};
use crate::shared::{
    AFTER_NUMBER, AFTER_UNIT, CN_UNIT, NUMBER, OFF, OPERATORS, START, TOO_LARGE, UNITS, syntax,
};
use duration_str::{Cause, Expected, Options, parse, parse_with};
use std::alloc::{AllocError, Global};
use std::time::Duration;

/// A head, a part, how many times it is repeated, and a tail.
type Long = (&'static str, &'static str, usize, &'static str);

fn long(alloc: Global, (head, part, times, tail): Long) -> Result<String, AllocError> {
    let run = part.repeat(alloc, times)?;
    format!(in alloc; "{head}{run}{tail}")
}

fn is_read(alloc: Global, pieces: Long, nanos: u64) -> Result<bool, AllocError> {
    let text = long(alloc, pieces)?;
    Ok(is_value(parse(&text), Duration::from_nanos(nanos)))
}

static READ: [(Long, u64); 6] = [
    (("", "0", 100_000, "1s"), 1_000_000_000),
    (("", " ", 100_000, "1s"), 1_000_000_000),
    (("1s", "\t\r\n ", 25_000, ""), 1_000_000_000),
    (("", "1ns", 10_000, ""), 10_000),
    (("1ns", "+1ns", 9_999, ""), 10_000),
    (("1", "*1", 10_000, ""), 1_000_000_000),
];

#[test]
fn reads_long_texts(rt: HostRuntime) {
    for &(pieces, nanos) in &READ {
        holds_in_memory(&rt, pieces.1, is_read(rt.alloc(), pieces, nanos));
    }
}

/// Long texts with their options, the place of the syntax fault, what could stand there, and the
/// message's last line.
static SYNTAX_FAULTS: [(Long, Options, usize, Expected, &str); 7] = [
    (("", "9", 100_000, " 2"), OFF, 100_001, AFTER_NUMBER, UNITS),
    (
        ("1s", " ", 100_000, "x"),
        OFF,
        100_002,
        AFTER_UNIT,
        OPERATORS,
    ),
    (("", " ", 100_000, ""), OFF, 100_000, START, NUMBER),
    (("1", "m", 100_000, ""), OFF, 1, AFTER_NUMBER, UNITS),
    (("1", "分", 1_000, ""), CN_UNIT, 1, AFTER_NUMBER, UNITS),
    (("1s", "+1s", 10_000, "+"), OFF, 30_003, START, NUMBER),
    (("1s", "-", 100_000, ""), OFF, 2, AFTER_UNIT, OPERATORS),
];

fn is_refused_long(
    alloc: Global,
    pieces: Long,
    o: Options,
    cause: Cause,
    line: &str,
) -> Result<bool, AllocError> {
    let text = long(alloc, pieces)?;
    let blanks = cause.place().unwrap_or_default();
    is_caused(alloc, (&text, o, cause), blanks, line)
}

#[test]
fn refuses_long_texts(rt: HostRuntime) {
    for &(pieces, o, place, expected, line) in &SYNTAX_FAULTS {
        let cause = syntax(place, expected);
        holds_in_memory(
            &rt,
            line,
            is_refused_long(rt.alloc(), pieces, o, cause, line),
        );
    }
    let number = ("", "9", 100_000, "");
    let cause = Cause::NumberTooLarge { place: Some(0) };
    let answer = is_refused_long(rt.alloc(), number, OFF, cause, TOO_LARGE);
    holds_in_memory(&rt, TOO_LARGE, answer);
}

fn has_one_token_after_the_number(text: &str, o: Options) -> bool {
    let rest = text.strip_prefix("1").unwrap_or_default();
    is_fault_at(parse_with(text, o), o, rest)
}

fn is_whole_run(
    alloc: Global,
    part: &'static str,
    times: usize,
    o: Options,
) -> Result<bool, AllocError> {
    let text = long(alloc, ("1", part, times, ""))?;
    Ok(has_one_token_after_the_number(&text, o))
}

#[test]
fn finds_the_whole_run(rt: HostRuntime) {
    for &(part, times, o) in &[("m", 100_000, OFF), ("分", 1_000, CN_UNIT)] {
        holds_in_memory(&rt, part, is_whole_run(rt.alloc(), part, times, o));
    }
}

/// Texts with the place of the syntax fault, what could stand there, and the token that stands
/// there.
static LOOK_ALIKES: [(&str, usize, Expected, &str); 14] = [
    ("*1m", 0, START, "*"),
    ("1m\u{3000}2", 2, AFTER_UNIT, "\u{3000}"),
    ("1m\u{a0}2", 2, AFTER_UNIT, "\u{a0}"),
    ("1m\u{2003}2", 2, AFTER_UNIT, "\u{2003}"),
    ("1m\u{85}2", 2, AFTER_UNIT, "\u{85}"),
    ("1m\u{feff}2", 2, AFTER_UNIT, "\u{feff}"),
    ("1m\u{c}2", 2, AFTER_UNIT, "\u{c}"),
    ("1m\u{0}2", 2, AFTER_UNIT, "\u{0}"),
    ("\u{ff11}m", 0, START, "\u{ff11}"),
    ("1\u{ff4d}", 1, AFTER_NUMBER, "\u{ff4d}"),
    ("1m\u{ff0b}2", 2, AFTER_UNIT, "\u{ff0b}"),
    ("\u{661}m", 0, START, "\u{661}"),
    ("1\u{17f}", 1, AFTER_NUMBER, "\u{17f}"),
    ("1\u{1f600}", 1, AFTER_NUMBER, "\u{1f600}"),
];

#[test]
fn takes_look_alikes_for_what_they_are(rt: HostRuntime) {
    for &(text, place, expected, found) in &LOOK_ALIKES {
        let cause = syntax(place, expected);
        holds(&rt, text, names_token(text, OFF, cause, found));
    }
}
