//! The units of time and their names, the options and the operators. This module only exports them.

pub use duration_str_base::operator::CondUnit;
pub use duration_str_base::options::Options;
pub use duration_str_base::unit::{TimeUnit, UNITS};
