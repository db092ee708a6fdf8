//! Callers of `duration_str`. They rely on its public contracts and its laws, and on no private
//! contract.
#![tactic(auto)]

pub mod cache;
pub mod countdown;
pub mod help;
pub mod line;
pub mod log;
pub mod product;
pub mod prompt;
pub mod stored;
pub mod sum;

pub use cache::{canonical, key, read_back};
pub use countdown::{in_parts, not_shown, shown, time_left};
pub use help::{default_timeout, refused_words};
pub use line::without_line_feed;
pub use log::add_entry;
pub use product::{Part, scaled};
pub use prompt::{is_unfinished, needs_letters, offered, taken_for};
pub use stored::{more_strictly, stored_duration, stored_unit, with_more_names};
pub use sum::{longest_first, total_of};
