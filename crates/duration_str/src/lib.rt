//! Duration expressions such as `3m + 13s + 29ms`, read and printed.
#![tactic(auto)]

mod config;
mod dates;
pub mod error;
pub mod ext;
pub mod laws;
pub mod parser;
pub mod printing;
mod signed;
pub mod token;
pub mod top;
pub mod unit;

pub use duration_str_base::rules::Rules;
pub use duration_str_help::help::Help;
pub use duration_str_help::mend::Mend;
pub use duration_str_help::suggestion::{MAX_SUGGESTION_LEN, SUGGESTION_BUFFER_SIZE, Suggestion};
pub use duration_str_printing::breakdown::Breakdown;
pub use duration_str_printing::format::{Format, Style, Units};
pub use duration_str_printing::rounding::{Rounding, round_to};
pub use duration_str_refusals::one_line::{MAX_ONE_LINE_LEN, ONE_LINE_BUFFER_SIZE};
pub use duration_str_refusals::report::REPORT_BUFFER_SIZE;
pub use error::{DError, DResult};
pub use ext::HumanFormat;
pub use parser::{
    Cause, Expected, Fault, parse, parse_by, parse_looked, parse_nanos, parse_nanos_specialized,
    parse_std, parse_with,
};
pub use printing::{
    FORMAT_BUFFER_SIZE, HUMAN_BUFFER_SIZE, MAX_LONG_LEN, MAX_PRINTED_LEN, write_format,
    write_human, write_rounded,
};
pub use token::{Token, Tokens, What};
pub use top::{
    DeserializeDuration, after_naive_date, after_naive_date_time, before_naive_date,
    before_naive_date_time, deserialize_duration, deserialize_duration_chrono,
    deserialize_duration_time, deserialize_option_duration, deserialize_option_duration_chrono,
    deserialize_option_duration_time, parse_chrono, parse_time,
};
pub use unit::{CondUnit, Options, TimeUnit, UNITS};
