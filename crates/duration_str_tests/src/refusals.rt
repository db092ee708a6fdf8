use crate::assertions::holds_in_memory;
use crate::comparisons::{is_fault, prints};
use crate::rows::{cause_of, list_at, listed, named_options, text_at, vectors};
use crate::shared::{NUMBER, OFF, OPERATORS, START, TOO_LARGE, UNITS, syntax};
use duration_str::{
    Cause, CondUnit, Expected, Fault, Options, parse, parse_chrono, parse_looked, parse_std,
    parse_time, parse_with,
};
use serde_json::Value;
use std::alloc::{AllocError, Global};

fn is_refused(text: &str, fault: Fault<'_>) -> bool {
    is_fault(parse(text), fault)
        && is_fault(parse_std(text), fault)
        && is_fault(parse_chrono(text), fault)
        && is_fault(parse_time(text), fault)
}

/// The fault of the text, or `None` if a call reads the text or refuses it with another fault.
fn refusal(text: &str, o: Options, cause: Cause) -> Option<Fault<'_>> {
    let fault = parse_with(text, o).err()?;
    let is_caused = fault.text() == text && fault.cause() == cause;
    let is_looked = is_fault(parse_looked(text, o).0, fault);
    (is_caused && is_looked && (o != OFF || is_refused(text, fault))).then_some(fault)
}

fn is_padded(alloc: Global, fault: Fault<'_>, wanted: &str) -> Result<bool, AllocError> {
    Ok(format!(in alloc; "{fault:>999}")?.as_str() == wanted)
}

fn is_printed(alloc: Global, fault: Fault<'_>, wanted: &str) -> Result<bool, AllocError> {
    Ok(prints(alloc, &fault, wanted)? && is_padded(alloc, fault, wanted)?)
}

fn points(alloc: Global, fault: Fault<'_>, blanks: usize, line: &str) -> Result<bool, AllocError> {
    let (text, blanks) = (fault.text(), " ".repeat(alloc, blanks)?);
    let wanted = format!(in alloc; "{text}\n{blanks}^\n{line}")?;
    is_printed(alloc, fault, wanted.as_str())
}

/// Whether the text is refused for this cause and the fault has this token. An empty `token` means
/// that the fault has none.
pub fn names_token(text: &str, o: Options, cause: Cause, token: &str) -> bool {
    let Some(fault) = refusal(text, o, cause) else {
        return false;
    };
    match fault.found(o) {
        Some(found) => found == token && !token.is_empty(),
        None => token.is_empty(),
    }
}

/// Whether the text is refused for this cause and the fault prints the line. If the cause has a
/// place, the text and a caret after this many blanks are printed above the line.
pub fn is_caused(
    alloc: Global,
    (text, o, cause): (&str, Options, Cause),
    blanks: usize,
    line: &str,
) -> Result<bool, AllocError> {
    let Some(fault) = refusal(text, o, cause) else {
        return Ok(false);
    };
    match cause.place() {
        Some(_) => points(alloc, fault, blanks, line),
        None => is_printed(alloc, fault, line),
    }
}

fn syntax_line(expected: Expected) -> &'static str {
    if expected.unit_word {
        UNITS
    } else if expected.operator {
        OPERATORS
    } else {
        NUMBER
    }
}

fn message_line(cause: Cause) -> &'static str {
    match cause {
        Cause::Empty => "Empty input",
        Cause::Syntax { expected, .. } => syntax_line(expected),
        Cause::NumberTooLarge { .. } => TOO_LARGE,
        Cause::Overflow { .. } => "overflow error",
        _ => "",
    }
}

fn chars_before(text: &str, place: usize) -> usize {
    text.char_indices()
        .take_while(|&(at, _)| at < place)
        .count()
}

fn prints_message(alloc: Global, fault: Fault<'_>) -> Result<bool, AllocError> {
    let line = message_line(fault.cause());
    match fault.cause().place() {
        None => is_printed(alloc, fault, line),
        Some(place) if fault.text().contains('\n') => {
            let wanted = format!(in alloc; "byte {place}: {line}")?;
            is_printed(alloc, fault, wanted.as_str())
        }
        Some(place) => points(alloc, fault, chars_before(fault.text(), place), line),
    }
}

/// Whether the fault has the row's token. The row has an empty text if there is no token.
fn has_token(fault: Fault<'_>, o: Options, row: &Value) -> bool {
    fault.found(o).unwrap_or("") == text_at(row, 4)
}

/// Whether the fault has the row's cause. The row doesn't name the operators that are mixed.
fn has_cause(alloc: Global, fault: Fault<'_>, row: &Value) -> Result<bool, AllocError> {
    match cause_of(row) {
        Some(cause) => Ok(fault.cause() == cause && prints_message(alloc, fault)?),
        None => Ok(text_at(row, 2) == "MIXED" && matches!(fault.cause(), Cause::Mixed { .. })),
    }
}

fn is_refused_row(alloc: Global, row: &Value) -> Result<bool, AllocError> {
    let (text, o) = (text_at(row, 0), named_options(list_at(row, 1)));
    let Some(fault) = parse_with(text, o).err() else {
        return Ok(false);
    };
    Ok(
        refusal(text, o, fault.cause()).is_some()
            && has_cause(alloc, fault, row)?
            && has_token(fault, o, row),
    )
}

#[test]
fn refuses_texts(rt: HostRuntime) {
    let vectors = vectors(rt.alloc());
    let rows = listed(&vectors, "refused");
    assert!(rt; rows.len() > 0);
    for row in rows {
        holds_in_memory(&rt, text_at(row, 0), is_refused_row(rt.alloc(), row));
    }
}

const PLUS_THEN_STAR: Cause = Cause::Mixed {
    first: CondUnit::Plus,
    later: CondUnit::Star,
};

const STAR_THEN_PLUS: Cause = Cause::Mixed {
    first: CondUnit::Star,
    later: CondUnit::Plus,
};

#[test]
fn names_the_operators_that_are_mixed(rt: HostRuntime) {
    for &(text, cause, line) in &[
        (
            "1m 2s*3",
            PLUS_THEN_STAR,
            "not support '+' with '*' calculate",
        ),
        (
            "1m*2*3+4",
            STAR_THEN_PLUS,
            "not support '*' with '+' calculate",
        ),
    ] {
        holds_in_memory(
            &rt,
            text,
            is_caused(rt.alloc(), (text, OFF, cause), 0, line),
        );
    }
}

fn points_after(alloc: Global, count: usize) -> Result<bool, AllocError> {
    let mut text = " ".repeat(alloc, count)?;
    text.push('x')?;
    is_caused(alloc, (&text, OFF, syntax(count, START)), count, NUMBER)
}

#[test]
fn points_after_many_blanks(rt: HostRuntime) {
    for count in 0..300usize {
        assert!(rt; points_after(rt.alloc(), count) == Ok(true), "{count}");
    }
    assert!(rt; points_after(rt.alloc(), 100_000) == Ok(true));
}
