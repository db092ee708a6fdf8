use crate::assertions::{holds, holds_in_memory};
use crate::comparisons::{is_human_format, is_value};
use crate::rows::{
    excludes, includes, list_at, listed, named_options, number_at, options_of, text_at, vectors,
};
use crate::shared::OFF;
use duration_str::{
    Fault, HumanFormat, Options, parse, parse_chrono, parse_looked, parse_std, parse_time,
    parse_with, write_human,
};
use jiff::SignedDuration;
use serde_json::Value;
use std::alloc::{AllocError, Global};
use std::process::Abort;
use std::time::Duration;

fn is_read(text: &str, o: Options, nanos: u64) -> bool {
    let plain = Duration::from_nanos(nanos);
    let signed = SignedDuration::from_nanos_i128(i128::from(nanos));
    let has_calls = o == OFF;
    is_value(parse_with(text, o), plain)
        && is_value(parse_looked(text, o).0, plain)
        && (!has_calls || is_value(parse(text), plain) && is_value(parse_std(text), plain))
        && (!has_calls
            || is_value(parse_chrono(text), signed) && is_value(parse_time(text), signed))
}

/// The value of a row in nanoseconds. The row begins with the seconds and the nanoseconds.
fn nanos_of(row: &Value) -> Option<u64> {
    number_at(row, 0)?
        .checked_mul(1_000_000_000)?
        .checked_add(number_at(row, 1)?)
}

fn reads_row(rt: &impl Abort, row: &Value, o: Options) {
    for text in list_at(row, 2) {
        let text = text.as_str().unwrap_or("");
        let reads = match nanos_of(row) {
            Some(nanos) => is_read(text, o, nanos),
            None => false,
        };
        holds(rt, text, reads);
    }
}

/// Fails unless the texts of a group are read under each choice of options in which those that the
/// group lists as `on` are on, and those that it lists as `off` are off.
fn reads_group(rt: &impl Abort, group: &Value) {
    let on = listed(group, "on");
    for bits in 0..8u8 {
        let o = options_of(bits);
        if includes(o, named_options(on)) && excludes(o, named_options(listed(group, "off"))) {
            for row in listed(group, "rows") {
                reads_row(rt, row, o);
            }
        }
    }
}

#[test]
fn reads_values(rt: HostRuntime) {
    let vectors = vectors(rt.alloc());
    let groups = listed(&vectors, "values");
    assert!(rt; groups.len() > 0);
    for group in groups {
        reads_group(&rt, group);
    }
}

fn reads_and_prints<T: Copy + HumanFormat>(
    alloc: Global,
    answer: Result<T, Fault<'_>>,
    printed: &str,
) -> Result<bool, AllocError> {
    match answer {
        Ok(value) => is_human_format(alloc, &value, printed),
        Err(_) => Ok(false),
    }
}

fn prints_into_strings(alloc: Global, text: &str, printed: &str) -> Result<bool, AllocError> {
    Ok(
        reads_and_prints(alloc, parse(text), printed)?
            && reads_and_prints(alloc, parse_chrono(text), printed)?
            && reads_and_prints(alloc, parse_time(text), printed)?,
    )
}

fn prints_into_a_buffer(text: &str, printed: &str) -> bool {
    match parse(text) {
        Ok(d) => write_human(&d, &mut [0xff; 64]) == printed,
        Err(_) => false,
    }
}

#[test]
fn prints_what_is_read(rt: HostRuntime) {
    let vectors = vectors(rt.alloc());
    let rows = listed(&vectors, "printed");
    assert!(rt; rows.len() > 0);
    for row in rows {
        let (text, printed) = (text_at(row, 0), text_at(row, 1));
        holds_in_memory(&rt, text, prints_into_strings(rt.alloc(), text, printed));
        holds(&rt, text, prints_into_a_buffer(text, printed));
        holds(&rt, text, parse(printed) == parse(text));
    }
}
