//! Errors that don't borrow the text, made from faults.
ghost use Rattle.std.specs.Prelude.{IfOk, IsOk};
ghost use Rattle.duration_str_refusals.specs.Errors.{IsErrorOf};
ghost use Rattle.duration_str_refusals.specs.declared.error.DError.TheVariants.{OverflowError};

use crate::fault::Fault;
use duration_str_base::cause::Cause;
use std::alloc::{AllocError, Allocator, Global};
use thiserror::Error;

/// A fault without the text that was read. It prints as the line of its cause (`Cause::line`).
///
/// ```text
/// DError::ParseError(line) // for the empty text; its line is "Empty input"
/// DError::OverflowError    // for `600y`
/// ```
#[derive(Debug, PartialEq, Drop, Error)]
pub enum DError<A: Allocator = Global> {
    /// Any fault except an overflow, with the line of its cause.
    #[error("{0}")]
    ParseError(String<A>),
    /// A term, a step of the evaluation or the value is 2^64 nanoseconds or more.
    #[error("overflow error")]
    OverflowError,
}

/// A value, or a [`DError`].
pub type DResult<T> = Result<T, DError>;

impl Fault<'_> {
    /// Turns this fault into an error. An overflow becomes `OverflowError`. Any other cause becomes
    /// `ParseError` with the cause's line. The call fails only if memory for that line is refused.
    ///
    /// ```text
    /// match parse("") {
    ///     Ok(d) => Ok(d),
    ///     Err(fault) => Err(fault.to_derror(alloc)?), // ParseError("Empty input")
    /// }
    /// ```
    pub fn to_derror<A: Allocator>(&self, alloc: A) -> Result<DError<A>, AllocError>
        ensures error { IfOk result (IsErrorOf self.now.cause) }
        ensures overflow { IsErrorOf {A = A} self.now.cause OverflowError → IsOk result }
    {
        match self.cause {
            Cause::Overflow { .. } => Ok(DError::OverflowError),
            cause => Ok(DError::ParseError(String::from_str(alloc, cause.line())?)),
        }
    }
}
