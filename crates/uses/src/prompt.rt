//! What a prompt shows where a text can't be read yet.
#![tactic(auto)]

ghost use Rattle.std.specs.Prelude.{◌≡◌, ◌↔◌, ◌&&◌, ◌+◌, ◌*◌, ◌^◌, ◌++◌, ◌≤◌, ℕ, List, false, length, IfSome, Some, IsTrue, chars};
ghost use Rattle.uses.specs.Common.{Syntax, Expected as Kinds, as_nanos, IsRefused, TimeUnit};
ghost use Rattle.duration_str_base.specs.Meaning.{meaning_of};
ghost use Rattle.duration_str.specs.Mended.{HasTokensOf, IsFraction};
ghost use Rattle.duration_str_help.specs.Mends.{suggestion_text};
ghost use Rattle.duration_str_base.specs.Text.{number_of};

use duration_str::laws::{
    mended_fractions, mended_texts, mended_tokens, one_sentence, place_and_kinds,
};
use duration_str::{Cause, Mend, Rules, SUGGESTION_BUFFER_SIZE, parse_by};
use std::time::Duration;

/// Returns whether a text has a syntax fault at its end, so that a prompt should wait for more.
///
/// ```text
/// is_unfinished("1m +", Rules::of(Options::off())) // true
/// is_unfinished("1m -", Rules::of(Options::off())) // false
/// // The unit is missing:
/// is_unfinished("1h 30", Rules::of(Options::off()).default_unit(None)) // true
/// ```
pub fn is_unfinished(text: &str, rules: Rules) -> bool
    ensures { (place : ℕ) (expected : Kinds)
        → IsRefused (meaning_of rules) (chars text.now) (Syntax place expected)
        → (IsTrue result ↔ (place ≡ length text.now)) }
{
    one_sentence();
    match parse_by(text, rules) {
        Ok(_) => false,
        Err(fault) => {
            matches!(fault.cause(), Cause::Syntax { .. }) && fault.found(rules.options).is_none()
        }
    }
}

/// Returns whether a keyboard should have letters, for a unit, and not digits, for a number, at the
/// place of a syntax fault. It needs no more than one of them, since never both are expected. The
/// result is `None` if the text has no syntax fault.
///
/// ```text
/// needs_letters("1m 3-5", Rules::of(Options::off())) // Some(true), after `1m 3`
/// needs_letters("1m+", Rules::of(Options::off()))    // Some(false)
/// ```
pub fn needs_letters(text: &str, rules: Rules) -> Option<bool>
    ensures { (place : ℕ) (expected : Kinds)
        → IsRefused (meaning_of rules) (chars text.now) (Syntax place expected)
        → (result ≡ Some expected.unit_word) × ((expected.number && expected.unit_word) ≡ false) }
{
    one_sentence();
    place_and_kinds();
    match parse_by(text, rules) {
        Ok(_) => None,
        Err(fault) => match fault.cause() {
            Cause::Syntax { expected, .. } => Some(expected.unit_word),
            _ => None,
        },
    }
}

/// Returns what a prompt offers in place of a refused text: the text with its suggestion. By the
/// same rules the offer can have a further syntax fault, but none before the end of the suggestion.
/// So the prompt can put the cursor there. The suggestion replaces whole tokens of the text. So a
/// prompt that colours tokens can keep the colours of those before and after it.
///
/// ```text
/// offered("5 mins 3x", Rules::of(Options::off())) // `5 `, `min` and ` 3x`
/// offered("1.5h 3x", Rules::of(Options::off()))   // ``, `90min` and ` 3x`
/// ```
pub fn offered(text: &str, rules: Rules) -> Option<Mend<'_>>
    ensures fault { IfSome result (λ new. (place : ℕ) (expected : Kinds)
        → IsRefused (meaning_of rules)
        (chars (new.front.now ++ (suggestion_text new.suggestion ++ new.rest.now)))
        (Syntax place expected)
        → length new.front.now + length (suggestion_text new.suggestion) ≤ place) }
    ensures tokens { IfSome result (λ new.
        HasTokensOf rules.options text.now new.front.now new.replaced.now new.rest.now) }
{
    mended_texts();
    mended_tokens();
    match parse_by(text, rules) {
        Ok(_) => None,
        Err(fault) => fault.mend(rules),
    }
}

/// Returns the duration that a prompt takes in place of a refused text, if one term is written for
/// the whole text. So it is for a number with a fraction and its unit, such as `1.5h`. The duration
/// is exact: multiplied by 10 for each digit after the point, it is the number without its point
/// times the unit's length.
///
/// ```text
/// taken_for("1.5h", Rules::of(Options::off()))    // Some(Duration::from_secs(5_400))
/// taken_for("0.5ns", Rules::of(Options::off()))   // None
/// taken_for("1.5h 1m", Rules::of(Options::off())) // None
/// ```
pub fn taken_for(text: &str, rules: Rules) -> Option<Duration>
    ensures { IfSome result (λ d. (whole : List ℕ) (decimals : List ℕ) (unit : TimeUnit)
        → IsFraction rules text.now whole decimals unit
        → as_nanos d * 10 ^ length decimals
        ≡ number_of (whole ++ decimals) * ((meaning_of rules).table unit).nanos) }
{
    one_sentence();
    mended_fractions();
    match parse_by(text, rules) {
        Ok(_) => None,
        Err(fault) => {
            let new = fault.mend(rules)?;
            if !new.front.is_empty() || !new.rest.is_empty() {
                return None;
            }
            let mut buffer = [0; SUGGESTION_BUFFER_SIZE];
            parse_by(new.suggestion.write(&mut buffer), rules).ok()
        }
    }
}
