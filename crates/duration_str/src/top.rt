//! Signed durations, dates and configuration values. This module only exports the calls.

pub use crate::config::{
    DeserializeDuration, deserialize_duration, deserialize_duration_chrono,
    deserialize_duration_time, deserialize_option_duration, deserialize_option_duration_chrono,
    deserialize_option_duration_time,
};
pub use crate::dates::{
    after_naive_date, after_naive_date_time, before_naive_date, before_naive_date_time,
};
pub use crate::signed::{parse_chrono, parse_time};
