//! Expressions that stand on a line of their own.
ghost use Rattle.uses.specs.Common.{chars};
ghost use Rattle.uses.specs.Line.{IsWithoutLineFeed, IsReadAsBefore};

use duration_str::laws::{blanks_free, one_sentence};

/// Returns a line without the line feed at its end, if it has one. An expression is read as before:
/// under every choice of options, it has the same value or is refused for the same cause.
///
/// ```text
/// without_line_feed("1m 30s\n") // "1m 30s"
/// ```
pub fn without_line_feed(line: &str) -> &str
    ensures text { IsWithoutLineFeed line.now result.now }
    ensures read { IsReadAsBefore (chars line.now) (chars result.now) }
{
    blanks_free();
    one_sentence();
    match line.strip_suffix('\n') {
        Some(text) => text,
        None => line,
    }
}
