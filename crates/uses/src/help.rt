//! Texts of a help page.
ghost use Rattle.uses.specs.Common.{AllByRecursion, as_nanos, chars, IsRead, off, Options, rules_of};
ghost use Rattle.duration_str.specs.Laws.{IsAdvised};

use duration_str::laws::{near_words, one_sentence};
use std::time::Duration;

/// Returns a program's default timeout as the help page shows it, and its length. The text is not
/// read to know the length: the prover refuses a wrong one.
pub fn default_timeout() -> (&'static str, Duration)
    ensures { IsRead (rules_of off) (chars result.0.now) (as_nanos result.1) }
{
    one_sentence();
    ("1m 30s", Duration::from_secs(90))
}

/// Returns words that people write for units, but that name no unit under any options. Before each
/// word stands the name to write instead. Under all options it names the unit that people mean.
///
/// ```text
/// refused_words()[1] // `min` for `mins`
/// ```
pub fn refused_words() -> [(&'static str, &'static str); 4]
    ensures { AllByRecursion (λ row. (o : Options)
        → IsAdvised o (chars row.1.now) (chars row.0.now)) result }
{
    near_words();
    [("h", "hrs"), ("min", "mins"), ("s", "secs"), ("y", "yrs")]
}
