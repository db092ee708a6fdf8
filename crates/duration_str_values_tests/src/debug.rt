use crate::assertions::holds_in_memory;
use crate::refusal::refusal;
use duration_str::{Cause, CondUnit, DError, Fault, TimeUnit, Tokens};
use duration_str_tests::shared::{AFTER_NUMBER, OFF};
use std::alloc::{AllocError, Global};
use std::fmt::Debug;

fn shows<T: Debug>(alloc: Global, value: &T, text: &str) -> Result<bool, AllocError> {
    Ok(format!(in alloc; "{value:?}")?.as_str() == text)
}

#[test]
fn shows_options_units_and_operators(rt: HostRuntime) {
    let alloc = rt.alloc();
    let off = "Options { no_calc: false, lowercase: false, cn_unit: false }";
    let unit = "MilliSecond";
    holds_in_memory(&rt, off, shows(alloc, &OFF, off));
    holds_in_memory(&rt, unit, shows(alloc, &TimeUnit::MilliSecond, unit));
    holds_in_memory(&rt, "Star", shows(alloc, &CondUnit::Star, "Star"));
}

/// Texts, and what `Debug` prints of their first token.
static TOKENS: [(&str, &str); 5] = [
    ("12", r#"Token { start: 0, text: "12", what: Number }"#),
    (
        "min",
        r#"Token { start: 0, text: "min", what: Word(Some(Minute)) }"#,
    ),
    ("x", r#"Token { start: 0, text: "x", what: Word(None) }"#),
    (
        "+",
        r#"Token { start: 0, text: "+", what: Operator(Plus) }"#,
    ),
    (" -", r#"Token { start: 1, text: "-", what: Other }"#),
];

#[test]
fn shows_tokens(rt: HostRuntime) {
    for &(text, wanted) in &TOKENS {
        let token = Tokens::new(text, OFF).next().expect(&rt, "a token");
        holds_in_memory(&rt, wanted, shows(rt.alloc(), &token, wanted));
    }
}

const PLUS_THEN_STAR: Cause = Cause::Mixed {
    first: CondUnit::Plus,
    later: CondUnit::Star,
};

const UNIT_EXPECTED: Cause = Cause::Syntax {
    place: 1,
    expected: AFTER_NUMBER,
};

static CAUSES: [(Cause, &str); 7] = [
    (
        UNIT_EXPECTED,
        "Syntax { place: 1, expected: Expected { \
        number: false, unit_word: true, operator: true, text_end: true } }",
    ),
    (
        Cause::NumberTooLarge { place: Some(0) },
        "NumberTooLarge { place: Some(0) }",
    ),
    (Cause::Overflow { place: None }, "Overflow { place: None }"),
    (PLUS_THEN_STAR, "Mixed { first: Plus, later: Star }"),
    (
        Cause::NotText { optional: true },
        "NotText { optional: true }",
    ),
    (Cause::Empty, "Empty"),
    (Cause::OutOfRange, "OutOfRange"),
];

#[test]
fn shows_causes(rt: HostRuntime) {
    for &(cause, wanted) in &CAUSES {
        holds_in_memory(&rt, wanted, shows(rt.alloc(), &cause, wanted));
    }
}

fn shows_an_error(alloc: Global, line: &str, text: &str) -> Result<bool, AllocError> {
    let error = DError::ParseError(String::from_str(alloc, line)?);
    shows(alloc, &error, text)
}

fn shows_the_error(alloc: Global, fault: Fault<'_>, text: &str) -> Result<bool, AllocError> {
    let error = fault.to_derror(alloc)?;
    shows(alloc, &error, text)
}

#[test]
fn shows_faults_and_errors(rt: HostRuntime) {
    let alloc = rt.alloc();
    let fault = refusal(&rt, "580y*2", OFF);
    let wanted = "Fault { text: \"580y*2\", cause: Overflow { place: None } }";
    holds_in_memory(&rt, wanted, shows(alloc, &fault, wanted));
    let wanted = "OverflowError";
    holds_in_memory(&rt, wanted, shows_the_error(alloc, fault, wanted));
    let wanted = "ParseError(\"Empty input\")";
    holds_in_memory(&rt, wanted, shows_an_error(alloc, "Empty input", wanted));
}
