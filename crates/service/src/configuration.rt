use duration_str::{Fault, deserialize_duration};
use serde_json::Value;
use std::time::Duration;

/// The required field `timeout`, or its fault; `None` if it is missing.
pub fn timeout<'a>(config: &'a Value) -> Option<Result<Duration, Fault<'a>>> {
    Some(deserialize_duration(config.get("timeout")?))
}

/// The field `keep_alive`: no duration if it is missing, null or the empty text.
pub fn keep_alive<'a>(config: &'a Value) -> Result<Option<Duration>, Fault<'a>> {
    match config.get("keep_alive") {
        Some(value) => deserialize_duration(value),
        None => Ok(None),
    }
}
