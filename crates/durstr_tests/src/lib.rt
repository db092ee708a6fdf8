//! Tests of `durstr_run`.
#![tactic(auto)]

#[cfg(test)]
mod extremes;
#[cfg(test)]
mod fault;
#[cfg(test)]
mod running;
#[cfg(test)]
mod words;
