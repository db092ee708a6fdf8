//! Reads durations from standard input, one on each line, and prints them.
//!
//! The words of the command line choose the options: `no_calc`, `lowercase`, `cn_unit`.
#![tactic(auto)]

use duration_str::Options;
use durstr_run::{ending, run, with_word};
use std::env;
use std::io::ErrorKind;
use std::process::ExitCode;

fn ended(rt: &HostRuntime) -> (u8, &'static str) {
    let words = match env::args(rt) {
        Ok(words) => words,
        Err(e) if e.kind() == ErrorKind::OutOfMemory => return (3, "durstr: out of memory"),
        Err(_) => return (2, "durstr: unknown word"),
    };
    let mut options = Options::off();
    for word in words.skip(1) {
        match with_word(options, word.as_str()) {
            Some(next) => options = next,
            None => return (2, "durstr: unknown word"),
        }
    }
    ending(run(rt.alloc(), &mut rt.stdin(), &mut rt.stdout(), options))
}

fn main(rt: HostRuntime) -> ExitCode {
    let (status, line) = ended(&rt);
    if !line.is_empty() {
        // The exit status shows the failure too, so it does not matter if this line can't be
        // written.
        let _ = eprintln!(rt; "{line}");
    }
    ExitCode::from(status)
}
