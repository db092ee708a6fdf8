//! What tests compare. Each comparison is a function, so that it is proved once.
use duration_str::{Fault, HumanFormat, Options};
use std::alloc::{AllocError, Allocator};
use std::fmt::Display;

pub fn prints<T: Display, A: Allocator>(
    alloc: A,
    value: &T,
    text: &str,
) -> Result<bool, AllocError> {
    Ok(value.to_string(alloc)?.as_str() == text)
}

pub fn is_human_format<T: HumanFormat, A: Allocator>(
    alloc: A,
    value: &T,
    text: &str,
) -> Result<bool, AllocError> {
    if !value.is_printable() {
        return Ok(false);
    }
    Ok(value.human_format(alloc)?.as_str() == text)
}

pub fn is_value<T: Copy + PartialEq>(answer: Result<T, Fault<'_>>, wanted: T) -> bool {
    match answer {
        Ok(value) => value == wanted,
        Err(_) => false,
    }
}

pub fn is_fault<T: Copy>(answer: Result<T, Fault<'_>>, wanted: Fault<'_>) -> bool {
    match answer {
        Ok(_) => false,
        Err(fault) => fault == wanted,
    }
}

pub fn is_fault_at<T: Copy>(answer: Result<T, Fault<'_>>, o: Options, token: &str) -> bool {
    match answer {
        Ok(_) => false,
        Err(fault) => fault.found(o) == Some(token),
    }
}
