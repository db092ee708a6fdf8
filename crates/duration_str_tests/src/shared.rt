ghost use Rattle.std.specs.Prelude.{◌≡◌};
ghost use Rattle.duration_str_base.specs.declared.cause.Cause.TheVariants.{Syntax};

use duration_str::{Cause, Expected, Options};

pub const OFF: Options = Options {
    no_calc: false,
    lowercase: false,
    cn_unit: false,
};

pub const CN_UNIT: Options = Options {
    cn_unit: true,
    ..OFF
};

/// What can stand at the start and after an operator.
pub const START: Expected = Expected {
    number: true,
    unit_word: false,
    operator: false,
    text_end: false,
};

pub const AFTER_NUMBER: Expected = Expected {
    number: false,
    unit_word: true,
    operator: true,
    text_end: true,
};

pub const AFTER_UNIT: Expected = Expected {
    number: true,
    unit_word: false,
    operator: true,
    text_end: true,
};

pub fn syntax(place: usize, expected: Expected) -> Cause
    ensures { result ≡ Syntax place expected }
{
    Cause::Syntax { place, expected }
}

/// The line of a syntax fault where a unit could stand.
pub const UNITS: &str =
    r#"expected ["y", "q", "mon", "w", "d", "h", "m", "s", "ms", "µs", "us", "ns"]"#;

/// The line where no unit could stand, but an operator could.
pub const OPERATORS: &str = "expected ['+', '*']";

/// The line where neither a unit nor an operator could stand.
pub const NUMBER: &str = "expected number";

pub const TOO_LARGE: &str = "number too large to fit in target type";
