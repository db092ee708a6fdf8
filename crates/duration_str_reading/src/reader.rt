//! The one pass over the tokens of a text.
ghost use Rattle.std.specs.Prelude.{◌≡◌, length, Some, IsOk, OnOk, IfOk, IfErr};
ghost use Rattle.std.specs.Option.{ok_or};
ghost use Rattle.std.specs.Result.{result_err, ForErr};
ghost use Rattle.duration_str_reading.specs.Internal.Rest.{rest_of, answer_left, number_fault, unit_read, operator_read, ReadsItem, CutsOn, IsFollowed, IsPlaceless, with_term};
ghost use Rattle.duration_str_reading.specs.Iteration.{source, cut_place};
ghost use Rattle.duration_str_reading.specs.Internal.Steps.{IsAhead};
ghost use Rattle.duration_str_reading.specs.Value.{combination};
ghost use Rattle.duration_str_reading.specs.Answer.{expected_at_start, expected_after_number, expected_after_unit};
ghost use Rattle.duration_str_base.specs.declared.cause.Cause.TheVariants.{Syntax};
ghost use Rattle.duration_str_base.specs.Rules.{Rules as AnyRules};
ghost use Rattle.duration_str_base.specs.Meaning.{meaning_of, table_of};
ghost use Rattle.duration_str_base.specs.Internal.Numbers.{u64_from};
ghost use Rattle.duration_str_reading.specs.declared.token.TokenStart.TheVariants.{Number as a_number};

use crate::token::{TokenStart, Tokens};
use duration_str_base::cause::{Cause, Expected};
use duration_str_base::operator::CondUnit;
use duration_str_base::rules::{Rules, unit_table};
use duration_str_base::unit::TimeUnit;

/// The operator and the total of the later terms so far, or `None` if there are none, or their
/// first fault. Under `no_calc` the first term is counted among them.
type Later = Result<Option<(CondUnit, u64)>, Cause>;

/// Reads the tokens. Returns their value in nanoseconds, or the cause of their refusal.
///
/// The later terms are combined first, by the operator before the second term, and the first term
/// is combined with their total at the end. Under `no_calc` the total starts with the first term
/// instead, and the first fault of a later term is returned at once. Otherwise that fault is kept
/// in place of the total while the rest is read, since a syntax fault in the rest comes first.
#[inline(always)]
pub fn read(tokens: &mut Tokens<'_>, rules: Rules) -> Result<u64, Cause>
    ensures answer { result
        ≡ answer_left (meaning_of rules) (rest_of (meaning_of rules) tokens.old) }
    ensures whole { OnOk result (cut_place tokens.new ≡ length (source tokens.old)) }
    ensures place { CutsOn tokens.old tokens.new result }
{
    expect_number(tokens)?;
    let number = tokens.take_number();
    let value = unit_table(rules).times(read_unit(tokens, rules)?, number, Some(0))?;
    let (first, mut later) = if rules.options.no_calc {
        (0, Ok(Some((CondUnit::Plus, value))))
    } else {
        (value, Ok(None))
    };
    while let Some(next) = read_operator(tokens, rules)? {
        let number = tokens.take_number();
        let unit = read_unit(tokens, rules)?;
        later = with_term(later, next, number, rules, unit);
        if rules.options.no_calc {
            later?;
        }
    }
    match later? {
        None => Ok(first),
        Some((operator, total)) => within(combination(operator, first, total)),
    }
}

#[inline(always)]
fn expect_number(tokens: &mut Tokens<'_>) -> Result<(), Cause>
    ensures rest { (r : AnyRules) → rest_of r tokens.new ≡ rest_of r tokens.old }
    ensures number { IsOk result → IsAhead tokens.new (Some a_number) }
    ensures fault { (r : AnyRules) → result_err result ≡ number_fault (rest_of r tokens.old) }
    ensures place { CutsOn tokens.old tokens.new result }
{
    if tokens.is_number_ahead() {
        return Ok(());
    }
    Err(syntax(tokens.place(), at_start()))
}

#[inline(always)]
fn read_unit(tokens: &mut Tokens<'_>, rules: Rules) -> Result<TimeUnit, Cause>
    ensures unit { ReadsItem (meaning_of rules)
        (unit_read (meaning_of rules)) tokens.old tokens.new result }
    ensures place { CutsOn tokens.old tokens.new result }
{
    let Some(sort) = tokens.sort_after_number() else {
        return unit_left_out(tokens.place(), rules);
    };
    let place = tokens.place();
    match sort {
        TokenStart::Word => match tokens.take_word(rules) {
            Some(unit) => Ok(unit),
            None => Err(no_unit(place, rules)),
        },
        TokenStart::Operator(_) if !rules.options.no_calc => unit_left_out(place, rules),
        // Operators have an arm of their own, so that the prover knows that one stands here.
        TokenStart::Operator(_) => Err(no_unit(place, rules)),
        TokenStart::Number | TokenStart::Other => Err(no_unit(place, rules)),
    }
}

#[inline(always)]
fn unit_left_out(place: usize, rules: Rules) -> Result<TimeUnit, Cause>
    ensures { result
        ≡ ok_or rules.default_unit (Syntax place (expected_after_number (meaning_of rules))) }
{
    match rules.default_unit {
        Some(unit) => Ok(unit),
        None => Err(no_unit(place, rules)),
    }
}

#[inline(always)]
fn no_unit(place: usize, rules: Rules) -> Cause
    ensures { result ≡ Syntax place (expected_after_number (meaning_of rules)) }
{
    syntax(place, after_number(rules))
}

#[inline(always)]
fn read_operator(tokens: &mut Tokens<'_>, rules: Rules) -> Result<Option<CondUnit>, Cause>
    ensures operator { ReadsItem (meaning_of rules)
        (operator_read (meaning_of rules)) tokens.old tokens.new result }
    ensures next { IfOk result (IsFollowed tokens.new) }
    ensures place { CutsOn tokens.old tokens.new result }
{
    let Some(sort) = tokens.sort_ahead() else {
        return Ok(None);
    };
    let place = tokens.place();
    match sort {
        TokenStart::Number => Ok(Some(CondUnit::Plus)),
        TokenStart::Operator(operator) if !rules.options.no_calc => {
            tokens.advance();
            expect_number(tokens)?;
            Ok(Some(operator))
        }
        // Operators have an arm of their own, as in `read_unit`.
        TokenStart::Operator(_) => Err(no_operator(place, rules)),
        TokenStart::Word | TokenStart::Other => Err(no_operator(place, rules)),
    }
}

#[inline(always)]
fn no_operator(place: usize, rules: Rules) -> Cause
    ensures { result ≡ Syntax place (expected_after_unit (meaning_of rules)) }
{
    syntax(place, after_unit(rules))
}

/// Combines the later terms so far with a new term. `next` is the operator before it.
#[inline(always)]
fn with_term(
    later: Later,
    next: CondUnit,
    number: Option<u64>,
    rules: Rules,
    unit: TimeUnit,
) -> Later
    requires { ForErr later IsPlaceless }
    ensures value { result ≡ with_term later next number ((meaning_of rules).table unit).nanos }
    ensures placeless { IfErr result IsPlaceless }
{
    let Some((operator, total)) = later? else {
        return Ok(Some((next, unit_table(rules).times(unit, number, None)?)));
    };
    if next != operator {
        return Err(Cause::Mixed {
            first: operator,
            later: next,
        });
    }
    let value = unit_table(rules).times(unit, number, None)?;
    Ok(Some((next, within(combination(next, total, value))?)))
}

#[inline]
fn within(value: Option<u64>) -> Result<u64, Cause>
    ensures { result ≡ ok_or value (Cause.Overflow None) }
{
    value.ok_or(Cause::Overflow { place: None })
}

#[inline]
fn combination(operator: CondUnit, left: u64, right: u64) -> Option<u64>
    ensures { result ≡ u64_from (combination operator left right) }
{
    match operator {
        CondUnit::Plus => left.checked_add(right),
        CondUnit::Star => scaled(left, right),
    }
}

/// Divides the product by the nanoseconds of a second in two steps: first all but its last 32 bits,
/// and then these with the remainder. So no step divides a number of 128 bits, for which
/// WebAssembly would need a further function.
#[cold]
#[inline(never)]
fn scaled(left: u64, right: u64) -> Option<u64>
    ensures { result ≡ u64_from (combination CondUnit.Star left right) }
{
    const SECOND: u64 = 1_000_000_000;
    const STEP: u64 = 1 << 32;
    let product = left as u128 * right as u128;
    let upper = product / STEP as u128;
    if upper >= SECOND as u128 * STEP as u128 {
        return None;
    }
    let first = upper as u64;
    let second = first % SECOND * STEP + (product % STEP as u128) as u64;
    Some(first / SECOND * STEP + second / SECOND)
}

#[inline(always)]
fn syntax(place: usize, expected: Expected) -> Cause
    ensures { result ≡ Syntax place expected }
{
    Cause::Syntax { place, expected }
}

#[inline(always)]
fn at_start() -> Expected
    ensures { result ≡ expected_at_start }
{
    Expected {
        number: true,
        unit_word: false,
        operator: false,
        text_end: false,
    }
}

#[inline(always)]
fn after_number(rules: Rules) -> Expected
    ensures { result ≡ expected_after_number (meaning_of rules) }
{
    Expected {
        number: false,
        unit_word: true,
        operator: rules.default_unit.is_some() && !rules.options.no_calc,
        text_end: rules.default_unit.is_some(),
    }
}

#[inline(always)]
fn after_unit(rules: Rules) -> Expected
    ensures { result ≡ expected_after_unit (meaning_of rules) }
{
    Expected {
        number: true,
        unit_word: false,
        operator: !rules.options.no_calc,
        text_end: true,
    }
}
