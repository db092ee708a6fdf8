use duration_str::{Fault, Options, parse, parse_with, write_human};
use std::time::Duration;

/// The timeout in a text such as `1m*10ms`, which is 600 milliseconds.
pub fn timeout(text: &str) -> Result<Duration, Fault<'_>> {
    parse(text)
}

/// The sum of a text's terms: `2h 37m` is read, and `2h*37` is refused at byte 2.
pub fn sum(text: &str) -> Result<Duration, Fault<'_>> {
    parse_with(
        text,
        Options {
            no_calc: true,
            ..Options::off()
        },
    )
}

/// The printed duration, such as `600ms`.
pub fn shown<'b>(length: &Duration, buffer: &'b mut [u8; 64]) -> &'b str {
    write_human(length, buffer)
}
