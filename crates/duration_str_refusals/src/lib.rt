//! A `Fault`, which is a refused text with its cause, and what is said of it: the message, the
//! line, the report, and an error that doesn't borrow the text. It uses `duration_str_help` for the
//! help and the mend, and `duration_str_reading` for the token at a fault's place.
//!
//! Programs call `duration_str`. What that crate doesn't export is for the library's own crates,
//! and may change.
//!
//! The definitions begin with `specs/Messages.antt` and `specs/OneLine.antt`.
#![tactic(auto)]

pub mod error;
pub mod fault;
mod layout;
mod message;
pub mod one_line;
pub mod report;
