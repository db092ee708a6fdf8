//! The key of a cache: one text for each value and style.
#![tactic(auto, using(crate::proofs::CacheLemmas::key_is_canonical))]

ghost use Rattle.std.specs.Prelude.{ℕ, List, Option, IfOk, IfErr, chars};
ghost use Rattle.uses.specs.Common.{as_nanos, Options as Choice, TimeUnit as Unit, IsPrintedIn, rules_with};
ghost use Rattle.duration_str_printing.specs.declared.format.Style.{Style as AnyStyle};
ghost use Rattle.uses.specs.Cache.{IsKey, IsCanonical, IsAnswerTo, Refuses};

use crate::countdown::in_parts;
use duration_str::laws::{equal_texts, greatest_breakdown, one_sentence, reads_back};
use duration_str::{Cause, FORMAT_BUFFER_SIZE, Fault, Style, TimeUnit, parse};
use std::time::Duration;

/// The least number of nanoseconds that no text is read as.
const LIMIT: u128 = 1 << 64;

/// Writes the key of a duration to the caller's buffer, and returns it: the duration's text in a
/// style, printed in full. The text's counts are the greatest breakdown of the duration. No other
/// duration has the same key in this style, so a cache needs to compare no more than keys.
pub fn key<'b>(length: Duration, style: Style, buffer: &'b mut [u8; FORMAT_BUFFER_SIZE]) -> &'b str
    ensures { IsKey style (as_nanos length) (chars result.now) }
{
    equal_texts();
    greatest_breakdown();
    in_parts(&length, 11, style, buffer)
}

/// Writes the canonical text of an expression to the caller's buffer, and returns it: the key of
/// the expression's value. The canonical text is read back as this value, and as no other, under
/// every choice of options and with each default unit.
///
/// ```text
/// canonical("30 + 1m", Style::Short, &mut buffer) // Ok("1min 30s")
/// canonical("45s*2", Style::Long, &mut buffer)    // Ok("1 minute 30 seconds")
/// ```
pub fn canonical<'a, 'b>(
    text: &'a str,
    style: Style,
    buffer: &'b mut [u8; FORMAT_BUFFER_SIZE],
) -> Result<&'b str, Fault<'a>>
    ensures key { IfOk result (λ key. IsCanonical style (chars text.now) (chars key.now)) }
    ensures fault { IfErr result (Refuses text.now) }
{
    reads_back();
    one_sentence();
    Ok(key(parse(text)?, style, buffer))
}

/// Returns what reading a duration's text would return, if the text is printed in full, in any
/// style, and is read under any options and with any default unit or none. The text is neither made
/// nor read, so a program can ask this before it stores a duration as its text.
///
/// ```text
/// read_back(Duration::new(18_446_744_073, 709_551_615)) // Ok, the same duration
/// read_back(Duration::new(18_446_744_073, 709_551_616)) // Err, Overflow without a place
/// read_back(Duration::MAX)                              // Err, Overflow at 0
/// ```
pub fn read_back(d: Duration) -> Result<Duration, Cause>
    ensures { (default_unit : Option Unit) (o : Choice) (style : AnyStyle) (text : List ℕ)
        → IsPrintedIn style (as_nanos d) text → IsAnswerTo (rules_with o default_unit) text result }
{
    reads_back();
    let nanos = d.as_nanos();
    if nanos < LIMIT {
        return Ok(d);
    }
    if nanos < 585 * u128::from(TimeUnit::Year.nanos()) {
        return Err(Cause::Overflow { place: None });
    }
    Err(Cause::Overflow { place: Some(0) })
}
