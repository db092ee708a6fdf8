//! The operators.
ghost use Rattle.std.specs.Prelude.{◌≡◌, Some};
ghost use Rattle.std.specs.Fmt.{padded};
ghost use Rattle.duration_str_base.specs.Causes.{sign_of};
ghost use Rattle.duration_str_base.specs.Text.{operator_of};

use std::fmt;

/// An operator between two terms.
///
/// ```
/// assert_eq!(duration_str::CondUnit::Star.to_string(), "*");
/// ```
#[derive(Clone, Copy, Debug, PartialEq, Eq, Hash)]
pub enum CondUnit {
    /// `+`
    Plus,
    /// `*`
    Star,
}

impl CondUnit {
    /// Returns the operator that a character stands for, if any.
    ///
    /// ```
    /// use duration_str::CondUnit;
    ///
    /// assert_eq!(CondUnit::from_char('+'), Some(CondUnit::Plus));
    /// assert_eq!(CondUnit::from_char('-'), None);
    /// ```
    #[must_use]
    pub const fn from_char(c: char) -> Option<CondUnit>
        ensures { result ≡ operator_of c }
    {
        match c {
            '+' => Some(CondUnit::Plus),
            '*' => Some(CondUnit::Star),
            _ => None,
        }
    }
}

/// Prints `+` or `*`.
impl fmt::Display for CondUnit {
    ghost output = { λ operator. Some (sign_of operator) };

    ghost styled_output = { λ operator style. Some (padded style (sign_of operator)) };

    fn fmt<W: fmt::Write>(&self, f: &mut fmt::Formatter<W>) -> fmt::Result {
        f.pad(match self {
            CondUnit::Plus => "+",
            CondUnit::Star => "*",
        })
    }
}
