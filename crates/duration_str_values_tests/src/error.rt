use crate::assertions::holds_in_memory;
use crate::refusal::refusal;
use duration_str::{
    DError, Fault, after_naive_date, deserialize_duration, deserialize_option_duration,
};
use duration_str_tests::comparisons::prints;
use duration_str_tests::shared::{OFF, TOO_LARGE};
use jiff::Timestamp;
use refusing::Refusing;
use serde_json::{Value, json};
use std::alloc::{AllocError, Allocator, Global};
use std::time::Duration;

/// Whether the error owns this line, or is an overflow.
fn owns<A: Allocator>(error: &DError<A>, line: &str) -> bool {
    match error {
        DError::ParseError(text) => text.as_str() == line,
        DError::OverflowError => true,
    }
}

/// Makes the fault's error, while the request for memory with the number `refused` is refused.
/// Returns how many requests were made, or `None` if the error has another line, or if the call
/// goes on after the refusal.
fn requests(
    alloc: Global,
    fault: Fault<'_>,
    line: &str,
    refused: u64,
) -> Result<Option<u64>, AllocError> {
    let heap = Refusing::nth(alloc, refused);
    let is_right = match fault.to_derror(&heap) {
        Ok(error) => { heap.made() < refused && owns(&error, line) && prints(alloc, &error, line)? }
        Err(AllocError) => heap.made() == refused,
    };
    Ok(is_right.then_some(heap.made()))
}

/// Whether the fault's error has this line, and it takes `count` requests for memory to make it,
/// each of which can be refused.
fn takes(alloc: Global, fault: Fault<'_>, line: &str, count: u64) -> Result<bool, AllocError> {
    for refused in 1..100u64 {
        let made = requests(alloc, fault, line, refused)?;
        if made != Some(refused) {
            return Ok(made == Some(count));
        }
    }
    Ok(false)
}

#[test]
fn holds_the_line(rt: HostRuntime) {
    for &(text, line) in &[
        ("", "Empty input"),
        ("1m+", "expected number"),
        ("18446744073709551616", TOO_LARGE),
        ("1s + 18446744073709551616", TOO_LARGE),
        ("1m 2s*3", "not support '+' with '*' calculate"),
    ] {
        let fault = refusal(&rt, text, OFF);
        holds_in_memory(&rt, text, takes(rt.alloc(), fault, line, 1));
    }
}

fn holds_the_line_out_of_range(alloc: Global) -> Result<bool, AllocError> {
    match after_naive_date(Timestamp::MAX, "1ns") {
        Ok(_) => Ok(false),
        Err(fault) => takes(alloc, fault, "date out of range", 1),
    }
}

#[test]
fn holds_the_line_of_a_date(rt: HostRuntime) {
    holds_in_memory(&rt, "1ns", holds_the_line_out_of_range(rt.alloc()));
}

fn holds_the_line_of_no_text(alloc: Global) -> Result<bool, AllocError> {
    let line = "expect duration string, e.g: '1min+30'";
    match deserialize_duration::<Duration>(&Value::Null) {
        Ok(_) => Ok(false),
        Err(fault) => takes(alloc, fault, line, 1),
    }
}

fn holds_the_line_of_an_optional_value(alloc: Global) -> Result<bool, AllocError> {
    let line = "expect duration string, null, or missing field";
    let number = json!(in alloc; 5)?;
    match deserialize_option_duration(&number) {
        Ok(_) => Ok(false),
        Err(fault) => takes(alloc, fault, line, 1),
    }
}

#[test]
fn holds_the_lines_of_what_is_no_text(rt: HostRuntime) {
    holds_in_memory(&rt, "null", holds_the_line_of_no_text(rt.alloc()));
    holds_in_memory(&rt, "5", holds_the_line_of_an_optional_value(rt.alloc()));
}

fn becomes(alloc: Global, fault: Fault<'_>, line: &str) -> Result<bool, AllocError> {
    let wanted = DError::ParseError(String::from_str(alloc, line)?);
    Ok(fault.to_derror(alloc)? == wanted)
}

fn becomes_an_overflow(alloc: Global, fault: Fault<'_>) -> Result<bool, AllocError> {
    let error = fault.to_derror(alloc)?;
    Ok(error == DError::OverflowError && prints(alloc, &error, "overflow error")?)
}

#[test]
fn becomes_an_error(rt: HostRuntime) {
    let empty = refusal(&rt, "", OFF);
    holds_in_memory(&rt, "empty", becomes(rt.alloc(), empty, "Empty input"));
    let overflow = refusal(&rt, "580y*2", OFF);
    holds_in_memory(&rt, "580y*2", becomes_an_overflow(rt.alloc(), overflow));
}

#[test]
fn allocates_nothing_for_an_overflow(rt: HostRuntime) {
    for &text in &["580y*2", "10000000000000000y"] {
        let fault = refusal(&rt, text, OFF);
        holds_in_memory(&rt, text, takes(rt.alloc(), fault, "overflow error", 0));
    }
}
