use crate::assertions::{holds, holds_in_memory};
use duration_str::{HumanFormat, MAX_PRINTED_LEN, write_human};
use duration_str_tests::comparisons::is_human_format;
use jiff::SignedDuration;
use refusing::Refusing;
use std::alloc::{AllocError, Global};
use std::time::Duration;

const LONGEST_TEXT: &str = "100000000000y 3q 2mon 3w 6d 23h 59min 59s 999ms 999µs 999ns";

/// A duration whose text has the greatest length.
fn longest() -> Duration {
    Duration::new(3_153_600_000_031_190_399, 999_999_999)
}

fn is_printed(alloc: Global, d: Duration, text: &str) -> Result<bool, AllocError> {
    Ok(write_human(&d, &mut [0xff; 64]) == text && is_human_format(alloc, &d, text)?)
}

#[test]
fn prints_what_no_text_is_read_as(rt: HostRuntime) {
    for &(d, text) in &[
        (
            Duration::new(18_446_744_073, 709_551_616),
            "584y 3q 2mon 1w 3d 23h 34min 33s 709ms 551µs 616ns",
        ),
        (
            Duration::new(u64::MAX, 999_999_999),
            "584942417355y 3w 5d 7h 15s 999ms 999µs 999ns",
        ),
        (longest(), LONGEST_TEXT),
    ] {
        holds_in_memory(&rt, text, is_printed(rt.alloc(), d, text));
    }
    assert!(rt; LONGEST_TEXT.len() == MAX_PRINTED_LEN);
}

fn prints_alike(alloc: Global, nanos: u64) -> Result<bool, AllocError> {
    let plain = Duration::from_nanos(nanos);
    let signed = SignedDuration::from_nanos_i128(i128::from(nanos));
    let mut buffer = [0; 64];
    let text = write_human(&plain, &mut buffer);
    Ok(is_human_format(alloc, &plain, text)? && is_human_format(alloc, &signed, text)?)
}

#[test]
fn prints_all_short_durations_alike(rt: HostRuntime) {
    for nanos in 0..2_000u64 {
        assert!(rt; prints_alike(rt.alloc(), nanos) == Ok(true));
    }
}

/// How many requests for memory are made to print the value, while the request with the number
/// `refused` is refused. The result is `None` if the value prints another text than this, or if the
/// call goes on after the refusal.
fn requests_until<T: HumanFormat>(
    alloc: Global,
    value: &T,
    text: &str,
    refused: u64,
) -> Option<u64> {
    let heap = Refusing::nth(alloc, refused);
    let is_right = match is_human_format(&heap, value, text) {
        Ok(is_text) => is_text && heap.made() < refused,
        Err(AllocError) => heap.made() == refused,
    };
    is_right.then_some(heap.made())
}

/// How many requests for memory it takes to print the value as this text. The result is `None` if
/// the value prints another text, or if the call goes on after one of them is refused.
fn requests<T: HumanFormat>(alloc: Global, value: &T, text: &str) -> Option<u64> {
    for refused in 1..100u64 {
        let made = requests_until(alloc, value, text, refused);
        if made != Some(refused) {
            return made;
        }
    }
    None
}

#[test]
fn requests_memory_for_the_text_alone(rt: HostRuntime) {
    let text = "3min 13s 29ms";
    let plain = Duration::new(193, 29_000_000);
    let signed = SignedDuration::from_millis(193_029);
    holds(&rt, text, requests(rt.alloc(), &plain, text) == Some(1));
    holds(&rt, text, requests(rt.alloc(), &signed, text) == Some(1));
}
