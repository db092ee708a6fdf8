ghost use Rattle.std.specs.Option.{ForSome};
ghost use Rattle.std.specs.Str.{IsCharBoundary};
ghost use Rattle.duration_str_base.specs.Causes.{place_of};

use crate::assertions::{holds, holds_in_memory};
use duration_str::{
    Cause, Fault, deserialize_duration, deserialize_duration_chrono, deserialize_duration_time,
    deserialize_option_duration, deserialize_option_duration_chrono,
    deserialize_option_duration_time,
};
use duration_str_tests::comparisons::{is_fault, is_fault_at, is_value, prints};
use duration_str_tests::shared::{AFTER_NUMBER, OFF, START, syntax};
use jiff::SignedDuration;
use serde_json::{Value, json};
use std::alloc::{AllocError, Global};
use std::time::Duration;

pub fn is_required(value: &Value, secs: u32) -> bool {
    let plain = Duration::from_secs(u64::from(secs));
    let signed = SignedDuration::from_secs(i64::from(secs));
    is_value(deserialize_duration::<Duration>(value), plain)
        && is_value(deserialize_duration::<SignedDuration>(value), signed)
        && is_value(deserialize_duration_chrono(value), signed)
        && is_value(deserialize_duration_time(value), signed)
}

fn is_refused(value: &Value, fault: Fault<'_>) -> bool {
    is_fault(deserialize_duration::<Duration>(value), fault)
        && is_fault(deserialize_duration::<SignedDuration>(value), fault)
        && is_fault(deserialize_duration_chrono(value), fault)
        && is_fault(deserialize_duration_time(value), fault)
}

pub fn is_optional(value: &Value, secs: Option<u32>) -> bool {
    let (plain, signed) = match secs {
        Some(secs) => (
            Some(Duration::from_secs(u64::from(secs))),
            Some(SignedDuration::from_secs(i64::from(secs))),
        ),
        None => (None, None),
    };
    is_value(deserialize_duration::<Option<Duration>>(value), plain)
        && is_value(deserialize_option_duration(value), plain)
        && is_value(
            deserialize_duration::<Option<SignedDuration>>(value),
            signed,
        )
        && is_value(deserialize_option_duration_chrono(value), signed)
        && is_value(deserialize_option_duration_time(value), signed)
}

fn is_refused_if_there(value: &Value, fault: Fault<'_>) -> bool {
    is_fault(deserialize_duration::<Option<Duration>>(value), fault)
        && is_fault(deserialize_option_duration(value), fault)
        && is_fault(deserialize_duration::<Option<SignedDuration>>(value), fault)
        && is_fault(deserialize_option_duration_chrono(value), fault)
        && is_fault(deserialize_option_duration_time(value), fault)
}

fn no_text<'a>(optional: bool) -> Fault<'a> {
    Fault {
        text: "",
        cause: Cause::NotText { optional },
    }
}

fn is_read(alloc: Global, text: &str, secs: u32) -> Result<bool, AllocError> {
    let value = json!(in alloc; text)?;
    Ok(is_required(&value, secs) && is_optional(&value, Some(secs)))
}

#[test]
fn reads_texts(rt: HostRuntime) {
    for &(text, secs) in &[
        ("1y+30", 31_536_030),
        ("1 y + 30", 31_536_030),
        ("1min+30", 90),
        ("1m", 60),
        ("30s", 30),
    ] {
        holds_in_memory(&rt, text, is_read(rt.alloc(), text, secs));
    }
}

fn is_taken_for_none(alloc: Global, text: &str, cause: Cause) -> Result<bool, AllocError>
    requires { ForSome (place_of cause) (IsCharBoundary text.now) }
{
    let value = json!(in alloc; text)?;
    Ok(is_optional(&value, None) && is_refused(&value, Fault { text, cause }))
}

fn takes_a_missing_field_for_none(alloc: Global) -> Result<bool, AllocError> {
    let config = json!(in alloc; {"timeout": "30s"})?;
    Ok(match config.get("interval") {
        Some(value) => is_value(deserialize_option_duration(value), None),
        None => true,
    })
}

#[test]
fn takes_null_and_the_empty_text_for_none(rt: HostRuntime) {
    assert!(rt; is_optional(&Value::Null, None));
    let answer = is_taken_for_none(rt.alloc(), "", Cause::Empty);
    holds_in_memory(&rt, "empty", answer);
    holds_in_memory(&rt, "missing", takes_a_missing_field_for_none(rt.alloc()));
}

fn is_refused_text(alloc: Global, text: &str, cause: Cause) -> Result<bool, AllocError>
    requires { ForSome (place_of cause) (IsCharBoundary text.now) }
{
    let value = json!(in alloc; text)?;
    let fault = Fault { text, cause };
    Ok(is_refused(&value, fault) && is_refused_if_there(&value, fault))
}

#[test]
fn hands_on_the_fault_of_a_text(rt: HostRuntime) {
    let alloc = rt.alloc();
    let overflow = Cause::Overflow { place: None };
    holds_in_memory(
        &rt,
        "0mxyz",
        is_refused_text(alloc, "0mxyz", syntax(1, AFTER_NUMBER)),
    );
    holds_in_memory(&rt, "blank", is_refused_text(alloc, " ", syntax(1, START)));
    holds_in_memory(&rt, "580y*2", is_refused_text(alloc, "580y*2", overflow));
}

fn has_token_in_a_value(alloc: Global, text: &str, token: &str) -> Result<bool, AllocError> {
    let value = json!(in alloc; text)?;
    let answer = deserialize_duration::<Duration>(&value);
    Ok(is_fault_at(answer, OFF, token))
}

#[test]
fn finds_the_token_in_a_value(rt: HostRuntime) {
    holds_in_memory(
        &rt,
        "0mxyz",
        has_token_in_a_value(rt.alloc(), "0mxyz", "mxyz"),
    );
}

fn is_no_text(alloc: Global, json: &str) -> bool {
    match Value::from_str(alloc, json) {
        Ok(value) => {
            is_refused(&value, no_text(false)) && is_refused_if_there(&value, no_text(true))
        }
        Err(_) => false,
    }
}

#[test]
fn refuses_what_is_no_text(rt: HostRuntime) {
    for &json in &["5", "-1", "1.5", "true", "[]", "[\"1m\"]", "{\"secs\": 1}"] {
        holds(&rt, json, is_no_text(rt.alloc(), json));
    }
    assert!(rt; is_refused(&Value::Null, no_text(false)));
}

#[test]
fn says_what_is_no_text(rt: HostRuntime) {
    for &(optional, line) in &[
        (false, "expect duration string, e.g: '1min+30'"),
        (true, "expect duration string, null, or missing field"),
    ] {
        holds_in_memory(&rt, line, prints(rt.alloc(), &no_text(optional), line));
    }
}
