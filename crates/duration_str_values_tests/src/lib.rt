//! Tests of what the library's calls return for dates and configuration values, and of what prints
//! as a string: durations, errors, and values for programmers.
#![tactic(auto)]

#[cfg(test)]
mod assertions;
#[cfg(test)]
mod config;
#[cfg(test)]
mod debug;
#[cfg(test)]
mod error;
#[cfg(test)]
mod ext;
#[cfg(test)]
mod fixed_memory;
#[cfg(test)]
mod refusal;
#[cfg(test)]
mod top;
