//! The laws, which are proved statements about the definitions.
//!
//! Programs call them as `duration_str::laws`.
//!
//! The definitions begin with `specs/Laws.antt` and `specs/Mended.antt`.
#![tactic(auto)]

pub mod laws;
