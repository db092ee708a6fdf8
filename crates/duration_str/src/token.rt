//! The tokens of a text. This module only exports them.

pub use duration_str_reading::token::{Token, Tokens, What};
