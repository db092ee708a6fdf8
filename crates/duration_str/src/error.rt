//! Errors that don't borrow the text, made from faults. This module only exports them.

pub use duration_str_refusals::error::{DError, DResult};
