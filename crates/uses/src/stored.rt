//! Durations that an older version of a program stored as texts, or that were stored under other
//! rules.
#![tactic(auto, using(crate::proofs::StoredLemmas::value_answered, crate::proofs::StoredLemmas::cause_answered))]

ghost use Rattle.std.specs.Prelude.{◌≡◌, ℕ, Some, Ok, IsOkAnd, IsErrAnd, chars};
ghost use Rattle.uses.specs.Common.{as_nanos, IsRead, Cause as AnyCause, rules_with};
ghost use Rattle.duration_str_reading.specs.ReadingLaws.{HasNoCapital, HasNoOperator};
ghost use Rattle.duration_str_base.specs.Meaning.{meaning_of};
ghost use Rattle.duration_str.specs.Older.{older_row_of, older_rules, WasRefused};
ghost use Rattle.duration_str_base.specs.Rules.{unit_of_word};
ghost use Rattle.duration_str_base.specs.Units.{UnitRow};
ghost use Rattle.duration_str_base.specs.declared.unit.TimeUnit.{TimeUnit as Unit};

use duration_str::laws::{more_names, no_calc_agrees, older_texts, one_sentence, options_idle};
use duration_str::{Fault, Options, Rules, TimeUnit, parse_nanos, parse_with};
use std::time::Duration;

/// Reads a text that was stored before the quarter became a unit, and returns its duration. A text
/// that an older version accepted is accepted with the same value. A text whose evaluation an older
/// version refused is refused for the same cause.
///
/// ```text
/// stored_duration("1y 2mon", Options::off()) // 425 days, as before
/// ```
pub fn stored_duration(text: &str, o: Options) -> Result<Duration, Fault<'_>>
    ensures kept { (nanos : ℕ) → IsRead (older_rules o) (chars text.now) nanos
        → IsOkAnd result (λ d. as_nanos d ≡ nanos) }
    ensures refused { (cause : AnyCause) → WasRefused o (chars text.now) cause
        → IsErrAnd result (λ f. f.cause ≡ cause) }
{
    older_texts();
    one_sentence();
    parse_with(text, o)
}

/// Returns the unit that a stored name means, and the unit's length in nanoseconds, or `None` if no
/// unit has this name. A name that an older version knew means the same unit as then, with the same
/// length.
///
/// ```text
/// stored_unit("mon", Options::off()) // Some((TimeUnit::Month, 2_592_000_000_000_000))
/// ```
pub fn stored_unit(name: &str, o: Options) -> Option<(TimeUnit, u64)>
    ensures { (unit : Unit) (row : UnitRow)
        → unit_of_word (older_rules o) (chars name.now) ≡ Some unit → older_row_of unit ≡ Some row
        → result ≡ Some (unit, row.nanos) }
{
    older_texts();
    let unit = TimeUnit::from_word(name, o)?;
    Some((unit, unit.nanos()))
}

/// Reads a text with more names, such as `mins`. If the text is read without them, its value is the
/// same. So a program can begin to read more names, and none of its stored texts changes.
///
/// ```text
/// with_more_names("1h 30m", Options::off(), None) // Ok(5_400_000_000_000), as without them
/// with_more_names("5 mins", Options::off(), None) // Ok(300_000_000_000)
/// ```
pub fn with_more_names(
    text: &str,
    o: Options,
    default_unit: Option<TimeUnit>,
) -> Result<u64, Fault<'_>>
    ensures kept { (nanos : ℕ) → IsRead (rules_with o default_unit) (chars text.now) nanos
        → result ≡ Ok nanos }
{
    one_sentence();
    more_names();
    parse_nanos(text, Rules::of(o).default_unit(default_unit).more_names())
}

/// Reads a text by these rules, but with `no_calc` and `lowercase`. A text that these rules read,
/// and that has no operators and no ASCII capitals, keeps its value. So a program can turn these
/// options on.
///
/// ```text
/// more_strictly("1h 30m", Rules::of(Options::off())) // Ok(5_400_000_000_000), as without them
/// ```
pub fn more_strictly(text: &str, rules: Rules) -> Result<u64, Fault<'_>>
    ensures kept { (nanos : ℕ) → HasNoOperator (chars text.now) → HasNoCapital (chars text.now)
        → IsRead (meaning_of rules) (chars text.now) nanos → result ≡ Ok nanos }
{
    one_sentence();
    no_calc_agrees();
    options_idle();
    let mut strict = rules;
    strict.options.no_calc = true;
    strict.options.lowercase = true;
    parse_nanos(text, strict)
}
