// The rows of `vectors.rt`.
use crate::shared::syntax;
use crate::vectors::VECTORS;
use duration_str::{Cause, Expected, Options};
use serde_json::Value;
use std::alloc::Global;

/// The tables of the file, or null if it is not JSON.
pub fn vectors(alloc: Global) -> Value {
    Value::from_str(alloc, VECTORS).unwrap_or(Value::Null)
}

pub fn listed<'a>(value: &'a Value, name: &str) -> &'a [Value] {
    items(value.get(name))
}

pub fn list_at(row: &Value, at: usize) -> &[Value] {
    items(row.get(at))
}

fn items(list: Option<&Value>) -> &[Value] {
    match list {
        Some(Value::Array(items)) => items.as_slice(),
        _ => &[],
    }
}

pub fn text_at(row: &Value, at: usize) -> &str {
    row.get(at).and_then(Value::as_str).unwrap_or("")
}

pub fn number_at(row: &Value, at: usize) -> Option<u64> {
    row.get(at)?.as_u64()
}

fn place_at(row: &Value, at: usize) -> Option<usize> {
    usize::try_from(number_at(row, at)?).ok()
}

fn has(words: &[Value], word: &str) -> bool {
    words.iter().any(|each| each.as_str() == Some(word))
}

pub fn options_of(bits: u8) -> Options {
    Options {
        no_calc: bits & 1 != 0,
        lowercase: bits & 2 != 0,
        cn_unit: bits & 4 != 0,
    }
}

pub fn named_options(words: &[Value]) -> Options {
    Options {
        no_calc: has(words, "no_calc"),
        lowercase: has(words, "lowercase"),
        cn_unit: has(words, "cn_unit"),
    }
}

pub fn includes(o: Options, wanted: Options) -> bool {
    (o.no_calc || !wanted.no_calc)
        && (o.lowercase || !wanted.lowercase)
        && (o.cn_unit || !wanted.cn_unit)
}

pub fn excludes(o: Options, other: Options) -> bool {
    !(o.no_calc && other.no_calc)
        && !(o.lowercase && other.lowercase)
        && !(o.cn_unit && other.cn_unit)
}

/// The cause of a refused row, unless it is a mixture, whose operators the row doesn't name.
pub fn cause_of(row: &Value) -> Option<Cause> {
    let place = place_at(row, 3);
    match text_at(row, 2) {
        "EMPTY" => Some(Cause::Empty),
        "SYNTAX" => Some(syntax(place?, expected_of(list_at(row, 5)))),
        "NUMBER_TOO_LARGE" => Some(Cause::NumberTooLarge { place }),
        "OVERFLOW" => Some(Cause::Overflow { place }),
        _ => None,
    }
}

fn expected_of(kinds: &[Value]) -> Expected {
    Expected {
        number: has(kinds, "number"),
        unit_word: has(kinds, "unit"),
        operator: has(kinds, "operator"),
        text_end: has(kinds, "end"),
    }
}
