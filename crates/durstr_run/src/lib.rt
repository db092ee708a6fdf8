//! What the program `durstr` does, over any reader and any writer.
#![tactic(auto)]

pub mod fault;
mod input;
mod lines;
mod output;
pub mod running;
pub mod words;

pub use fault::RunFault;
pub use running::run;
pub use words::{ending, with_word};
