use crate::assertions::holds;
use crate::config::{is_optional, is_required};
use crate::refusal::refusal;
use crate::top::{comes_from, leads_to};
use arrayvec::ArrayString;
use duration_str::{Fault, parse, write_human};
use duration_str_tests::comparisons::is_value;
use duration_str_tests::shared::OFF;
use jiff::Timestamp;
use jiff::civil::Date;
use serde_json::json;
use std::fmt::Write;
use std::test::Fail;
use std::time::Duration;

fn is_read_and_printed(text: &str, d: Duration, printed: &str) -> bool {
    is_value(parse(text), d) && write_human(&d, &mut [0; 64]) == printed
}

fn is_written(fault: Fault<'_>, wanted: &str) -> bool {
    let mut shown = ArrayString::<64>::new();
    write!(shown, "{fault}").is_ok() && shown.as_str() == wanted
}

/// None of these checks takes an allocator, so the calls that they make have nothing to allocate
/// from.
#[test]
fn answers_without_memory(rt: HostRuntime) -> Result<(), Fail> {
    let config = json!(in rt.alloc(); "1min+30")?;
    holds(&rt, "required", is_required(&config, 90));
    holds(&rt, "optional", is_optional(&config, Some(90)));
    let (text, d) = ("3m 13s 29ms", Duration::new(193, 29_000_000));
    holds(&rt, text, is_read_and_printed(text, d, "3min 13s 29ms"));
    let fault = refusal(&rt, "3ms-2ms", OFF);
    let wanted = "3ms-2ms\n   ^\nexpected ['+', '*']";
    holds(&rt, "3ms-2ms", is_written(fault, wanted));
    let before = Date::new(1969, 7, 5)?.at(0, 0, 0, 0);
    let after = Date::new(1970, 6, 30)?.at(0, 0, 0, 0);
    let start = Timestamp::UNIX_EPOCH;
    holds(&rt, "180d", leads_to(start, "180d", after));
    holds(&rt, "180d", comes_from(start, "180d", before));
    Ok(())
}

#[test]
fn stops_at_the_end_of_a_fixed_buffer(rt: HostRuntime) {
    let fault = refusal(&rt, "3ms-2ms", OFF);
    let mut shown = ArrayString::<31>::new();
    assert!(rt; write!(shown, "{fault}").is_err());
    let mut whole = ArrayString::<32>::new();
    assert!(rt; write!(whole, "{fault}").is_ok());
}
