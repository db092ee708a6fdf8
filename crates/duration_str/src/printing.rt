//! Durations printed for people. This module only exports the calls.

pub use duration_str_printing::printing::{
    FORMAT_BUFFER_SIZE, HUMAN_BUFFER_SIZE, MAX_LONG_LEN, MAX_PRINTED_LEN, write_format,
    write_human, write_rounded,
};
