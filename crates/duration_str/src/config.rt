//! Durations in configuration values.
ghost use Rattle.std.specs.Prelude.{◌≡◌, ◌≢◌, ◌⊎◌, pos, true, Result, None, [], IfOk, IfErr, IfSome, IfNone};
ghost use Rattle.std.specs.Duration.{as_nanos};
ghost use Rattle.jiff.specs.Words.{signed_nanos};
ghost use Rattle.serde_json.specs.Data.{Data, null, string};
ghost use Rattle.serde_json.specs.Find.{as_str};
ghost use Rattle.serde_json.specs.View.{view};
ghost use Rattle.duration_str.specs.Configuration.{IsRequired, IsOptional};
ghost use Rattle.duration_str_base.specs.declared.cause.Cause.TheVariants.{NotText};
ghost use Rattle.duration_str_refusals.specs.declared.fault.Fault.{Fault as PlainFault};

use crate::parser::parse;
use crate::signed::parse_chrono;
use duration_str_base::cause::Cause;
use duration_str_refusals::fault::Fault;
use jiff::SignedDuration;
use serde_json::Value;
use std::time::Duration;

/// A type that can be read from a configuration value.
///
/// A `Duration` or `SignedDuration` is a required value: a text is read by `parse`, and any other
/// value is refused as `NotText { optional: false }`. An `Option` of either is an optional value:
/// null and the empty text are read as `None`, any other text is read by `parse`, and any other
/// value is refused as `NotText { optional: true }`.
///
/// ```text
/// Option::<Duration>::deserialize_duration(&Value::Null) // Ok(None)
/// ```
pub trait DeserializeDuration<'de>: Sized {
    /// Whether reading a value with this data can give this result.
    ghost gives: { Data → Result Self PlainFault → Type 0 };

    /// Reads the value. If its text is refused, the fault borrows that text. The text of a
    /// `NotText` fault is empty.
    fn deserialize_duration(value: &'de Value) -> Result<Self, Fault<'de>>
        ensures { gives (view value.now) result };
}

fn not_text<'a>(optional: bool) -> Fault<'a>
    ensures text { result.text.now ≡ [] }
    ensures cause { result.cause ≡ NotText optional }
{
    Fault {
        text: "",
        cause: Cause::NotText { optional },
    }
}

fn optional_text<'a>(value: &'a Value) -> Result<Option<&'a str>, Fault<'a>>
    ensures some { IfOk result (λ o. IfSome o (λ text.
        (view value.now ≡ string text.now) × (text.now ≢ []))) }
    ensures none { IfOk result (λ o. IfNone o
        ((view value.now ≡ null) ⊎ (view value.now ≡ string []))) }
    ensures fault { IfErr result (λ f. (f.text.now ≡ []) × (f.cause ≡ NotText true)
        × (view value.now ≢ null) × (as_str (view value.now) ≡ None)) }
{
    match value {
        Value::Null => Ok(None),
        Value::String(text) if text.is_empty() => Ok(None),
        Value::String(text) => Ok(Some(text.as_str())),
        _ => Err(not_text(true)),
    }
}

impl<'de> DeserializeDuration<'de> for Duration {
    ghost gives = { IsRequired (λ d. pos (as_nanos d)) };

    #[tactic(auto, using(crate::proofs::ResultLemmas::parses_as))]
    fn deserialize_duration(value: &'de Value) -> Result<Duration, Fault<'de>> {
        match value.as_str() {
            Some(text) => parse(text),
            None => Err(not_text(false)),
        }
    }
}

impl<'de> DeserializeDuration<'de> for SignedDuration {
    ghost gives = { IsRequired signed_nanos };

    fn deserialize_duration(value: &'de Value) -> Result<SignedDuration, Fault<'de>> {
        match value.as_str() {
            Some(text) => parse_chrono(text),
            None => Err(not_text(false)),
        }
    }
}

impl<'de> DeserializeDuration<'de> for Option<Duration> {
    ghost gives = { IsOptional (λ d. pos (as_nanos d)) };

    #[tactic(auto, using(crate::proofs::ResultLemmas::parses_as))]
    fn deserialize_duration(value: &'de Value) -> Result<Option<Duration>, Fault<'de>> {
        match optional_text(value)? {
            Some(text) => parse(text).map(Some),
            None => Ok(None),
        }
    }
}

impl<'de> DeserializeDuration<'de> for Option<SignedDuration> {
    ghost gives = { IsOptional signed_nanos };

    fn deserialize_duration(value: &'de Value) -> Result<Option<SignedDuration>, Fault<'de>> {
        match optional_text(value)? {
            Some(text) => parse_chrono(text).map(Some),
            None => Ok(None),
        }
    }
}

/// Reads a configuration value into the type `T`. A `Duration` or `SignedDuration` is a required
/// value, and an `Option` of either is an optional value.
///
/// ```text
/// deserialize_duration::<Duration>(&json!(in alloc; "1min+30")?)  // Ok, 90 s
/// deserialize_duration::<Option<Duration>>(&Value::Null)          // Ok(None)
/// ```
///
/// # Errors
///
/// It returns the fault of a text that `parse` refuses, and `NotText` for a value that is not a
/// text. If the value is optional, null and the empty text are no errors: they are read as `None`.
pub fn deserialize_duration<'de, T: DeserializeDuration<'de>>(
    value: &'de Value,
) -> Result<T, Fault<'de>>
    ensures { T.gives (view value.now) result }
{
    T::deserialize_duration(value)
}

/// Returns what `deserialize_duration` returns for a `SignedDuration`.
///
/// ```text
/// deserialize_duration_chrono(&json!(in alloc; "1min+30")?) // Ok(SignedDuration::from_secs(90))
/// ```
pub fn deserialize_duration_chrono<'de>(value: &'de Value) -> Result<SignedDuration, Fault<'de>>
    ensures { IsRequired signed_nanos (view value.now) result }
{
    SignedDuration::deserialize_duration(value)
}

/// Returns what `deserialize_duration_chrono` returns.
///
/// ```text
/// deserialize_duration_time(&json!(in alloc; "1min+30")?) // Ok(SignedDuration::from_secs(90))
/// ```
pub fn deserialize_duration_time<'de>(value: &'de Value) -> Result<SignedDuration, Fault<'de>>
    ensures { IsRequired signed_nanos (view value.now) result }
{
    deserialize_duration_chrono(value)
}

/// Returns what `deserialize_duration` returns for an `Option<Duration>`.
///
/// ```text
/// // a field that may be missing
/// config.get("keep_alive").map_or(Ok(None), deserialize_option_duration)
/// ```
pub fn deserialize_option_duration<'de>(value: &'de Value) -> Result<Option<Duration>, Fault<'de>>
    ensures { IsOptional (λ d. pos (as_nanos d)) (view value.now) result }
{
    Option::<Duration>::deserialize_duration(value)
}

/// Returns what `deserialize_duration` returns for an `Option<SignedDuration>`.
///
/// ```text
/// deserialize_option_duration_chrono(&Value::Null) // Ok(None)
/// ```
pub fn deserialize_option_duration_chrono<'de>(
    value: &'de Value,
) -> Result<Option<SignedDuration>, Fault<'de>>
    ensures { IsOptional signed_nanos (view value.now) result }
{
    Option::<SignedDuration>::deserialize_duration(value)
}

/// Returns what `deserialize_option_duration_chrono` returns.
///
/// ```text
/// deserialize_option_duration_time(&Value::Null) // Ok(None)
/// ```
pub fn deserialize_option_duration_time<'de>(
    value: &'de Value,
) -> Result<Option<SignedDuration>, Fault<'de>>
    ensures { IsOptional signed_nanos (view value.now) result }
{
    deserialize_option_duration_chrono(value)
}
