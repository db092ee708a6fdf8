//! Tests of what the library's calls return for texts, and what the crates of tests have in common.
#![tactic(auto)]

#[cfg(test)]
mod assertions;
pub mod comparisons;
#[cfg(test)]
mod extremes;
#[cfg(test)]
mod reading;
#[cfg(test)]
mod refusals;
#[cfg(test)]
mod rows;
pub mod shared;
#[cfg(test)]
mod unit;
#[cfg(test)]
mod vectors;
