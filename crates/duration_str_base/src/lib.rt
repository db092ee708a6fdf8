//! What the library's other crates share: the units of time with their names, the options and the
//! rules by which a text is read, and the causes for which one is refused. Also blanks, slices of a
//! text, and what is written to a buffer. This is the lowest of the library's crates.
//!
//! Programs call `duration_str`. What that crate doesn't export is for the library's own crates,
//! and may change.
//!
//! The definitions begin with `specs/Units.antt` and `specs/Rules.antt`.
#![tactic(auto)]

pub mod blank;
pub mod buffer;
pub mod cause;
mod humantime;
pub mod more_names;
pub mod operator;
pub mod options;
pub mod packed;
pub mod rules;
pub mod slice;
pub mod table;
mod term;
pub mod unit;
