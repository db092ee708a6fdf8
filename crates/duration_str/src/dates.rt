//! Dates that are before or after a moment by the value of a text.
ghost use Rattle.std.specs.Prelude.{◌≡◌, ◌↔◌, pos, ◌+ℤ◌, ◌-ℤ◌, IsSome, IfSome, IfNone, IsErrAnd, Ok};
ghost use Rattle.std.specs.Duration.{as_nanos};
ghost use Rattle.duration_str.specs.Dates.{IsCivil, IsCivilDay, IsDated, IsInRange};
ghost use Rattle.duration_str_base.specs.declared.cause.Cause.TheVariants.{OutOfRange};

use crate::parser::parse;
use duration_str_base::cause::Cause;
use duration_str_refusals::fault::Fault;
use jiff::Timestamp;
use jiff::civil::{Date, DateTime};
use jiff::tz::Offset;
use std::time::Duration;

/// Subtracts the value of the text from the moment, and returns the date and time in UTC.
///
/// The text is read by `parse`. If it is refused, its fault is returned. If the result would be
/// before `Timestamp::MIN`, the cause is `OutOfRange`.
///
/// ```text
/// before_naive_date_time(Timestamp::UNIX_EPOCH, "1ns") // Ok, 1969-12-31T23:59:59.999999999
/// ```
pub fn before_naive_date_time(moment: Timestamp, input: &str) -> Result<DateTime, Fault<'_>>
    ensures { IsDated IsCivil (λ nanos. moment.nanosecond -ℤ pos nanos) input.now result }
{
    let length = parse(input)?;
    in_range(earlier(moment, length), input)
}

/// Adds the value of the text to the moment, and returns the date and time in UTC.
///
/// The text is read by `parse`. If it is refused, its fault is returned. If the result would be
/// after `Timestamp::MAX`, the cause is `OutOfRange`.
///
/// ```text
/// after_naive_date_time(Timestamp::UNIX_EPOCH, "180d") // Ok, 1970-06-30T00:00:00
/// ```
pub fn after_naive_date_time(moment: Timestamp, input: &str) -> Result<DateTime, Fault<'_>>
    ensures { IsDated IsCivil (λ nanos. moment.nanosecond +ℤ pos nanos) input.now result }
{
    let length = parse(input)?;
    in_range(later(moment, length), input)
}

/// Returns the date of what `before_naive_date_time` returns, or the same fault.
///
/// ```text
/// before_naive_date(Timestamp::UNIX_EPOCH, "90d") // Ok, 1969-10-03
/// ```
pub fn before_naive_date(moment: Timestamp, input: &str) -> Result<Date, Fault<'_>>
    ensures { IsDated IsCivilDay (λ nanos. moment.nanosecond -ℤ pos nanos) input.now result }
{
    match before_naive_date_time(moment, input) {
        Ok(earlier) => Ok(earlier.date()),
        Err(fault) => Err(fault),
    }
}

/// Returns the date of what `after_naive_date_time` returns, or the same fault.
///
/// ```text
/// after_naive_date(Timestamp::UNIX_EPOCH, "180d") // Ok, 1970-06-30
/// ```
pub fn after_naive_date(moment: Timestamp, input: &str) -> Result<Date, Fault<'_>>
    ensures { IsDated IsCivilDay (λ nanos. moment.nanosecond +ℤ pos nanos) input.now result }
{
    match after_naive_date_time(moment, input) {
        Ok(later) => Ok(later.date()),
        Err(fault) => Err(fault),
    }
}

fn earlier(moment: Timestamp, length: Duration) -> Option<DateTime>
    ensures shown { IfSome result (IsCivil (moment.nanosecond -ℤ pos (as_nanos length))) }
    ensures within { IsSome result ↔ IsInRange (moment.nanosecond -ℤ pos (as_nanos length)) }
{
    Some(at_utc(moment.checked_sub(length).ok()?))
}

fn later(moment: Timestamp, length: Duration) -> Option<DateTime>
    ensures shown { IfSome result (IsCivil (moment.nanosecond +ℤ pos (as_nanos length))) }
    ensures within { IsSome result ↔ IsInRange (moment.nanosecond +ℤ pos (as_nanos length)) }
{
    Some(at_utc(moment.checked_add(length).ok()?))
}

fn at_utc(moment: Timestamp) -> DateTime
    ensures { IsCivil moment.nanosecond result }
{
    Offset::UTC.to_datetime(moment)
}

fn in_range<'a>(at: Option<DateTime>, input: &'a str) -> Result<DateTime, Fault<'a>>
    ensures some { IfSome at (λ shown. result ≡ Ok shown) }
    ensures none { IfNone at (IsErrAnd result (λ fault.
        (fault.text.now ≡ input.now) × (fault.cause ≡ OutOfRange))) }
{
    at.ok_or(Fault {
        text: input,
        cause: Cause::OutOfRange,
    })
}
