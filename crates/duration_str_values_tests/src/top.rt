ghost use Rattle.std.specs.Option.{ForSome};
ghost use Rattle.std.specs.Str.{IsCharBoundary};
ghost use Rattle.duration_str_base.specs.Causes.{place_of};

use crate::assertions::{holds, holds_in_memory};
use duration_str::{
    Cause, Fault, HumanFormat, after_naive_date, after_naive_date_time, before_naive_date,
    before_naive_date_time,
};
use duration_str_tests::comparisons::{is_human_format, prints};
use duration_str_tests::shared::{AFTER_NUMBER, syntax};
use jiff::civil::{Date, DateTime};
use jiff::tz::Offset;
use jiff::{SignedDuration, Timestamp};
use std::test::Fail;
use std::time::Duration;

/// A day by its year, month and day.
type Day = (i16, i8, i8);

fn midnight((year, month, day): Day) -> Result<(Timestamp, DateTime), jiff::Error> {
    let start = Date::new(year, month, day)?.at(0, 0, 0, 0);
    Ok((Offset::UTC.to_timestamp(start)?, start))
}

fn fault<'a>(text: &'a str, cause: Cause) -> Fault<'a>
    requires { ForSome (place_of cause) (IsCharBoundary text.now) }
{
    Fault { text, cause }
}

pub fn leads_to(moment: Timestamp, text: &str, at: DateTime) -> bool {
    after_naive_date_time(moment, text) == Ok(at) && after_naive_date(moment, text) == Ok(at.date())
}

pub fn comes_from(moment: Timestamp, text: &str, at: DateTime) -> bool {
    before_naive_date_time(moment, text) == Ok(at)
        && before_naive_date(moment, text) == Ok(at.date())
}

fn leads_nowhere(moment: Timestamp, fault: Fault<'_>) -> bool {
    after_naive_date_time(moment, fault.text) == Err(fault)
        && after_naive_date(moment, fault.text) == Err(fault)
}

fn comes_from_nowhere(moment: Timestamp, fault: Fault<'_>) -> bool {
    before_naive_date_time(moment, fault.text) == Err(fault)
        && before_naive_date(moment, fault.text) == Err(fault)
}

#[test]
fn prints_signed_durations(rt: HostRuntime) {
    let longest = "292471208677y 2q 1w 6d 15h 30min 7s 999ms 999µs 999ns";
    let is_printed = is_human_format(rt.alloc(), &SignedDuration::MAX, longest);
    holds_in_memory(&rt, longest, is_printed);
    let negative = SignedDuration::from_nanos(-1);
    assert!(rt; SignedDuration::ZERO.is_printable() && !negative.is_printable());
    assert!(rt; !SignedDuration::MIN.is_printable());
}

fn leads_there_and_back(first: Day, text: &str, last: Day) -> Result<bool, jiff::Error> {
    let ((start, first), (end, last)) = (midnight(first)?, midnight(last)?);
    Ok(leads_to(start, text, last) && comes_from(end, text, first))
}

#[test]
fn goes_back_and_forth_by_days(rt: HostRuntime) -> Result<(), Fail> {
    for &(first, text, last) in &[
        ((1970, 1, 1), "180d", (1970, 6, 30)),
        ((2000, 2, 28), "2d", (2000, 3, 1)),
        ((2000, 2, 29), "1d", (2000, 3, 1)),
        ((2004, 2, 29), "1y", (2005, 2, 28)),
        ((1900, 2, 28), "1d", (1900, 3, 1)),
        ((1969, 12, 31), "1w", (1970, 1, 7)),
        ((1969, 12, 2), "1mon", (1970, 1, 1)),
        ((1601, 1, 1), "0s", (1601, 1, 1)),
    ] {
        holds(&rt, text, leads_there_and_back(first, text, last)?);
    }
    Ok(())
}

#[test]
fn counts_nanoseconds_before_1970(rt: HostRuntime) -> Result<(), Fail> {
    let (start, first) = midnight((1969, 12, 31))?;
    let last = first.date().at(23, 59, 59, 999_999_999);
    assert!(rt; comes_from(Timestamp::UNIX_EPOCH, "1ns", last));
    let noon = first.date().at(12, 0, 0, 500_000_000);
    assert!(rt; leads_to(start, "12h 500ms", noon));
    Ok(())
}

#[test]
fn ends_with_the_last_instant(rt: HostRuntime) -> Result<(), Fail> {
    let last = Date::new(9999, 12, 30)?.at(22, 0, 0, 999_999_999);
    let next_to_last = Timestamp::MAX.checked_sub(Duration::from_nanos(1))?;
    assert!(rt; leads_to(Timestamp::MAX, "0s", last) && leads_to(next_to_last, "1ns", last));
    assert!(rt; leads_nowhere(Timestamp::MAX, fault("1ns", Cause::OutOfRange)));
    Ok(())
}

#[test]
fn begins_with_the_first_instant(rt: HostRuntime) -> Result<(), Fail> {
    let first = Date::new(-9999, 1, 2)?.at(1, 59, 59, 0);
    let out = fault("1ns", Cause::OutOfRange);
    assert!(rt; comes_from(Timestamp::MIN, "0s", first) && comes_from_nowhere(Timestamp::MIN, out));
    holds_in_memory(&rt, "1ns", prints(rt.alloc(), &out, "date out of range"));
    Ok(())
}

#[test]
fn refuses_the_text_first(rt: HostRuntime) {
    for wanted in [
        fault("", Cause::Empty),
        fault("1x", syntax(1, AFTER_NUMBER)),
        fault("580y 580y", Cause::Overflow { place: None }),
    ] {
        let text = wanted.text;
        holds(&rt, text, leads_nowhere(Timestamp::MAX, wanted));
        holds(&rt, text, comes_from_nowhere(Timestamp::MIN, wanted));
    }
}
