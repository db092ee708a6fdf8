//! What a user may have meant by a refused text: the help, and the mend, which is a suggestion and
//! its place. These calls don't know the type `Fault`. They get the text, the place, and what could
//! stand there. Of the library's other crates, this one uses only `duration_str_base`.
//!
//! Programs call `duration_str`. What that crate doesn't export is for the library's own crates,
//! and may change.
//!
//! The definitions are in `specs/Help.antt` and `specs/Mends.antt`.
#![tactic(auto)]

pub mod characters;
pub mod fraction;
pub mod help;
pub mod mend;
pub mod suggestion;
