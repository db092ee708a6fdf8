//! Reading: the duration that a text means, or why it means none.
ghost use Rattle.std.specs.Prelude.{◌≡◌, ◌≤◌, length, Some, IfErr, OnOk};
ghost use Rattle.std.specs.Str.{chars};
ghost use Rattle.duration_str_base.specs.Rules.{rules_of, rules_with};
ghost use Rattle.duration_str.specs.Results.{Parses};
ghost use Rattle.duration_str.specs.OtherResults.{Reads};
ghost use Rattle.duration_str_reading.specs.Place.{ReachesPlace};
ghost use Rattle.duration_str_base.specs.Humantime.{humantime_rules};
ghost use Rattle.duration_str_base.specs.MoreNames.{more_rules};
ghost use Rattle.duration_str_base.specs.Meaning.{meaning_of};
ghost use Rattle.duration_str_base.specs.Options.{off};

pub use duration_str_base::cause::{Cause, Expected};
use duration_str_base::options::Options;
use duration_str_base::rules::{Rules, unit_table};
use duration_str_base::table::UnitTable;
use duration_str_base::unit::TimeUnit;
use duration_str_reading::reader::read;
use duration_str_reading::token::Tokens;
pub use duration_str_refusals::fault::Fault;
use std::time::Duration;

/// Reads a text with all options off, and returns the duration that it means.
///
/// It returns what `parse_with` returns for `Options::off()`. Terms such as `3m`, `29ms` or `10` (a
/// number without a unit counts seconds) are joined by `+` or by `*`. If an operator is left out,
/// it is a plus. The value is below 2^64 nanoseconds.
///
/// # Errors
///
/// It returns a [`Fault`] if the text means no duration.
///
/// ```
/// use duration_str::parse;
/// use std::time::Duration;
///
/// assert_eq!(parse("3m 13s 29ms").unwrap(), Duration::from_millis(193_029));
/// assert!(parse("1m 3-5").is_err());
/// ```
#[inline]
pub fn parse(input: &str) -> Result<Duration, Fault<'_>>
    ensures { Parses (rules_of off) input.now result }
{
    parse_with(input, Options::off())
}

/// Returns what `parse` returns.
///
/// # Errors
///
/// It refuses the same texts as [`parse`], for the same causes.
///
/// ```
/// assert_eq!(duration_str::parse_std("2h 37m").unwrap().as_secs(), 9_420);
/// ```
pub fn parse_std(input: &str) -> Result<Duration, Fault<'_>>
    ensures { Parses (rules_of off) input.now result }
{
    parse(input)
}

/// Reads a text under these options, and returns the duration that it means.
///
/// It returns `Ok` if and only if the text follows the grammar and its evaluation has no fault. The
/// value is below 2^64 nanoseconds.
///
/// A refusal holds the text, and the first cause in this order:
/// - `Empty` for the empty text
/// - a fault of the first term, unless a syntax fault directly follows its number
/// - `Syntax` at the first token that can't follow the text before it, or at the end of the text,
///   with what could stand there
/// - the first fault of the evaluation
///
/// Under `no_calc` the terms are added one by one, so the fault of a term, or of the sum up to it,
/// comes before a syntax fault after the term's unit. The call allocates nothing.
///
/// # Errors
///
/// It returns a [`Fault`] if the text means no duration.
///
/// ```
/// use duration_str::{Options, parse_with};
/// use std::time::Duration;
///
/// assert_eq!(parse_with("1m*60*20", Options::off()), Ok(Duration::from_secs(72_000)));
/// let no_calc = Options { no_calc: true, ..Options::off() };
/// assert_eq!(parse_with("2h 37m", no_calc), Ok(Duration::from_secs(9_420)));
/// assert_eq!(parse_with("1+2", no_calc).unwrap_err().cause().place(), Some(1));
/// ```
#[inline]
pub fn parse_with(input: &str, o: Options) -> Result<Duration, Fault<'_>>
    ensures { Parses (rules_of o) input.now result }
{
    parse_by(input, Rules::of(o))
}

/// Reads a text by these rules, and returns the duration that it means. It allocates nothing.
///
/// `parse_with` is this call with `Rules::of` of its options.
///
/// # Errors
///
/// It returns a [`Fault`] if the text means no duration.
///
/// ```text
/// let rules = Rules::of(Options::off());
/// let in_milliseconds = |text| parse_by(text, rules.default_unit(Some(TimeUnit::MilliSecond)));
/// in_milliseconds("1500")  // Ok(Duration::from_millis(1_500))
/// in_milliseconds("90s*2") // Ok(Duration::from_millis(180))
/// parse_by("1h 30", rules.default_unit(None)).unwrap_err().cause().place() // Some(5)
/// parse_by("5 mins", rules.more_names()) // Ok(Duration::from_secs(300))
/// ```
#[inline]
pub fn parse_by(input: &str, rules: Rules) -> Result<Duration, Fault<'_>>
    ensures { Parses (meaning_of rules) input.now result }
{
    parse_nanos(input, rules).map(Duration::from_nanos)
}

/// Reads a text as `parse_by` does, and returns the duration in nanoseconds.
///
/// For this call the reader is compiled once for each table of units, and once more for the rules
/// of `parse`, for which it is faster. A program contains the copies that its rules can need.
///
/// # Errors
///
/// It refuses the same texts as [`parse_by`], for the same causes.
///
/// ```text
/// parse_nanos("1ms 5ns", Rules::of(Options::off())) // Ok(1_000_005)
/// ```
#[inline]
pub fn parse_nanos(input: &str, rules: Rules) -> Result<u64, Fault<'_>>
    ensures { Reads (meaning_of rules) input.now result }
{
    match unit_table(rules) {
        UnitTable::Own => nanos_own(input, rules.options, rules.default_unit),
        UnitTable::More => nanos_more(input, rules.options, rules.default_unit),
        UnitTable::Humantime => nanos_humantime(input, rules.options, rules.default_unit),
    }
}

#[inline]
fn nanos_own(input: &str, o: Options, default_unit: Option<TimeUnit>) -> Result<u64, Fault<'_>>
    ensures { Reads (rules_with o default_unit) input.now result }
{
    if o.are_off() && default_unit == Some(TimeUnit::Second) {
        return nanos_off(input);
    }
    nanos_chosen(input, o, default_unit)
}

#[inline(never)]
fn nanos_off(input: &str) -> Result<u64, Fault<'_>>
    ensures { Reads (rules_of off) input.now result }
{
    parse_nanos_specialized(input, Rules::of(Options::off()))
}

#[inline(never)]
fn nanos_chosen(
    input: &str,
    options: Options,
    default_unit: Option<TimeUnit>,
) -> Result<u64, Fault<'_>>
    ensures { Reads (rules_with options default_unit) input.now result }
{
    parse_nanos_specialized(input, Rules::of(options).default_unit(default_unit))
}

#[inline(never)]
fn nanos_more(
    input: &str,
    options: Options,
    default_unit: Option<TimeUnit>,
) -> Result<u64, Fault<'_>>
    ensures { Reads (more_rules options default_unit) input.now result }
{
    let rules = Rules::of(options).default_unit(default_unit);
    parse_nanos_specialized(input, rules.more_names())
}

#[inline(never)]
fn nanos_humantime(
    input: &str,
    options: Options,
    default_unit: Option<TimeUnit>,
) -> Result<u64, Fault<'_>>
    ensures { Reads (record (humantime_rules options) { default_unit = default_unit })
        input.now result }
{
    parse_nanos_specialized(input, Rules::humantime(options).default_unit(default_unit))
}

/// Returns what `parse_nanos` returns. The whole reader is compiled into each place in the source
/// that calls this, and adds some kilobytes to the program there. The reader is faster if the
/// compiler knows the rules of the call.
///
/// # Errors
///
/// It refuses the same texts as [`parse_nanos`], for the same causes.
///
/// ```text
/// let rules = Rules::humantime(Options { lowercase: true, ..Options::off() });
/// parse_nanos_specialized("1M 5mins", rules) // Ok(2_630_316_000_000_000)
/// ```
#[inline(always)]
pub fn parse_nanos_specialized(input: &str, rules: Rules) -> Result<u64, Fault<'_>>
    ensures { Reads (meaning_of rules) input.now result }
{
    read_text(input, rules).0
}

/// Returns what `parse_with` returns, and how many times a character of the text was looked at.
///
/// There are at most as many looks as characters. Reading the digits of a number again is not
/// counted. If the text is accepted, there are as many looks as characters. If it is refused for a
/// syntax fault, there are at least as many looks as characters before the fault's place.
///
/// ```text
/// parse_looked("3m 13s", Options::off()) // (Ok(Duration::from_secs(193)), 6)
/// ```
pub fn parse_looked(input: &str, o: Options) -> (Result<Duration, Fault<'_>>, u64)
    ensures parsed { Parses (rules_of o) input.now result.0 }
    ensures once { result.1 ≤ length (chars input.now) }
    ensures whole { OnOk result.0 (result.1 ≡ length (chars input.now)) }
    ensures reaches { IfErr result.0 (λ f. ReachesPlace input.now f.cause result.1) }
{
    let (answer, looks) = read_text(input, Rules::of(o));
    (answer.map(Duration::from_nanos), looks)
}

#[inline(always)]
fn read_text(input: &str, rules: Rules) -> (Result<u64, Fault<'_>>, u64)
    ensures reads { Reads (meaning_of rules) input.now result.0 }
    ensures once { result.1 ≤ length (chars input.now) }
    ensures whole { OnOk result.0 (result.1 ≡ length (chars input.now)) }
    ensures reaches { IfErr result.0 (λ f. ReachesPlace input.now f.cause result.1) }
{
    if input.is_empty() {
        let fault = Fault {
            text: input,
            cause: Cause::Empty,
        };
        return (Err(fault), 0);
    }
    let mut tokens = Tokens::new(input, rules.options);
    match read(&mut tokens, rules) {
        Ok(nanos) => (Ok(nanos), tokens.looked()),
        Err(cause) => (Err(Fault { text: input, cause }), tokens.looked()),
    }
}
