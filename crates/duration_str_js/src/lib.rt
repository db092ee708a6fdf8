//! The calls of the JavaScript package, with slices and references in place of pointers.
//!
//! They allocate nothing, and refuse no argument. A number that JavaScript never passes has a
//! meaning, too: a style above 2, for example, is the long style.
#![tactic(auto)]

pub mod printing;
pub mod reading;
