//! Lengths of time that can be printed into a `String`.
ghost use Rattle.std.specs.Prelude.{◌≤◌, length, chars, ◌↔◌, IsTrue, ℤ, pos, ◌≤ℤ◌, unsigned_abs, IfOk, string_bytes};
ghost use Rattle.std.specs.Duration.{as_nanos};
ghost use Rattle.duration_str_printing.specs.Printing.{IsPrinted};
ghost use Rattle.duration_str_printing.specs.declared.printing.TheConstants.{MAX_PRINTED_LEN};

use duration_str_printing::printing::HUMAN_BUFFER_SIZE;
pub use duration_str_printing::printing::write_human;
use std::alloc::{AllocError, Allocator};
use std::time::Duration;

/// A length of time that can be printed for people, unless it is negative.
///
/// ```text
/// let d = Duration::new(93_784, 0);
/// d.is_printable()            // true
/// d.human_format(rt.alloc())? // "1d 2h 3min 4s"
/// ```
pub trait HumanFormat {
    /// The length in nanoseconds.
    ghost nanos: { Self → ℤ };

    /// Returns whether the length can be printed, which means that it is not negative.
    fn is_printable(&self) -> bool
        ensures { IsTrue result ↔ (pos 0 ≤ℤ nanos self.now) };

    /// Prints a length that is not negative, and returns its text, which has at most
    /// `MAX_PRINTED_LEN` bytes. It fails only if memory is refused.
    fn human_format<A: Allocator>(&self, alloc: A) -> Result<String<A>, AllocError>
        requires { pos 0 ≤ℤ nanos self.now }
        ensures text { IfOk result (λ text.
            IsPrinted (unsigned_abs (nanos self.now)) (chars (string_bytes text))) }
        ensures short { IfOk result (λ text. length (string_bytes text) ≤ MAX_PRINTED_LEN) };
}

impl HumanFormat for Duration {
    ghost nanos = { λ d. pos (as_nanos d) };

    fn is_printable(&self) -> bool {
        true
    }

    fn human_format<A: Allocator>(&self, alloc: A) -> Result<String<A>, AllocError> {
        let mut buffer = [0; HUMAN_BUFFER_SIZE];
        String::from_str(alloc, write_human(self, &mut buffer))
    }
}
