//! Durations printed, broken down into parts, and rounded. Of the library's other crates, this one
//! uses only `duration_str_base`.
//!
//! Programs call `duration_str`. What that crate doesn't export is for the library's own crates,
//! and may change.
//!
//! The definitions begin with `specs/Printing.antt`. `specs/PrintingLaws.antt` has the laws.
#![tactic(auto)]

pub mod breakdown;
pub mod format;
pub mod printing;
pub mod rounding;
