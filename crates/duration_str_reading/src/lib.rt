//! The tokens of a text, and the one pass over them, which gives nanoseconds or a cause. Of the
//! library's other crates, this one uses only `duration_str_base`.
//!
//! Programs call `duration_str`. What that crate doesn't export is for the library's own crates,
//! and may change.
//!
//! The definitions begin with `specs/Tokens.antt`, and lead to `specs/Reading.antt`.
//! `specs/ReadingLaws.antt` has the laws.
#![tactic(auto)]

mod eye;
pub mod reader;
pub mod token;
