//! The answer to a text as a C struct: its value, or why it is refused.
ghost use Rattle.std.specs.Prelude.{◌≡◌};
ghost use Rattle.std.specs.Str.{chars};
ghost use Rattle.duration_str_refusals.specs.Faults.{found_token};
ghost use Rattle.duration_str_c.specs.Answers.{cause_number, bits_of, expected_bits, sign_code, first_sign, later_sign, token_length, value_answer, unknown_option_answer, refusal_answer, TellsFault};

use duration_str::{Cause, CondUnit, Expected, Fault, Options};

// The numbers of causes.
const EMPTY: u32 = 1;

const SYNTAX: u32 = 2;

const NUMBER_TOO_LARGE: u32 = 3;

const OVERFLOW: u32 = 4;

const MIXED: u32 = 5;

const OUT_OF_RANGE: u32 = 6;

const NOT_TEXT: u32 = 7;

const UNKNOWN_OPTION: u32 = 8;

// The bits of what could stand at the place of a syntax fault.
const NUMBER: u32 = 1;

const UNIT: u32 = 2;

const OPERATOR: u32 = 4;

const END: u32 = 8;

/// The value of a text, or why it is refused. Fields that don't apply are 0.
#[repr(C)]
#[derive(Clone, Copy)]
pub struct Answer {
    /// The value in nanoseconds, if the text is read.
    pub nanos: u64,
    /// The byte offset of the fault, if it has a place.
    pub place: usize,
    /// The length in bytes of the token at the place of a syntax fault. It is 0 at the end of the
    /// text.
    pub found_length: usize,
    /// 0 if the text is read. Otherwise it is the number of the cause, from 1 for `Empty` to 7 for
    /// `NotText`, or 8 for an unknown option.
    pub cause: u32,
    /// What could stand at the place of a syntax fault, as bits: 1 is a number, 2 a unit, 4 an
    /// operator, and 8 the end.
    pub expected: u32,
    /// 1 if the fault has a place, otherwise 0.
    pub has_place: u8,
    /// If operators are mixed, the character of the first one. One that is left out is `+`.
    pub first_operator: u8,
    /// If operators are mixed, the character of the first one that differs from it.
    pub later_operator: u8,
}

impl Answer {
    pub(crate) fn value(nanos: u64) -> Answer
        ensures { result ≡ value_answer nanos }
    {
        Answer {
            nanos,
            place: 0,
            found_length: 0,
            cause: 0,
            expected: 0,
            has_place: 0,
            first_operator: 0,
            later_operator: 0,
        }
    }

    pub(crate) fn unknown_option() -> Answer
        ensures { result ≡ unknown_option_answer }
    {
        Answer {
            cause: UNKNOWN_OPTION,
            ..Answer::value(0)
        }
    }

    pub(crate) fn refusal(cause: Cause, found_length: usize) -> Answer
        ensures { result ≡ refusal_answer cause found_length }
    {
        let place = cause.place();
        let (first_operator, later_operator) = signs_of(cause);
        Answer {
            nanos: 0,
            place: place.unwrap_or(0),
            found_length,
            cause: cause_number(cause),
            expected: expected_bits(cause),
            has_place: u8::from(place.is_some()),
            first_operator,
            later_operator,
        }
    }
}

pub(crate) fn refused(fault: &Fault<'_>, options: Options) -> Answer
    ensures { TellsFault options fault.now.text.now fault.now.cause result }
{
    Answer::refusal(fault.cause(), found_length(fault, options))
}

fn found_length(fault: &Fault<'_>, options: Options) -> usize
    ensures { result ≡ token_length
        (found_token options (chars fault.now.text.now) fault.now.cause) }
{
    match fault.found(options) {
        Some(token) => token.len(),
        None => 0,
    }
}

pub(crate) fn cause_number(cause: Cause) -> u32
    ensures { result ≡ cause_number cause }
{
    match cause {
        Cause::Empty => EMPTY,
        Cause::Syntax { .. } => SYNTAX,
        Cause::NumberTooLarge { .. } => NUMBER_TOO_LARGE,
        Cause::Overflow { .. } => OVERFLOW,
        Cause::Mixed { .. } => MIXED,
        Cause::OutOfRange => OUT_OF_RANGE,
        Cause::NotText { .. } => NOT_TEXT,
    }
}

fn expected_bits(cause: Cause) -> u32
    ensures { result ≡ expected_bits cause }
{
    match cause {
        Cause::Syntax { expected, .. } => bits_of(expected),
        _ => 0,
    }
}

fn bits_of(expected: Expected) -> u32
    ensures { result ≡ bits_of expected }
{
    let number = if expected.number { NUMBER } else { 0 };
    let unit = if expected.unit_word { UNIT } else { 0 };
    let operator = if expected.operator { OPERATOR } else { 0 };
    let end = if expected.text_end { END } else { 0 };
    number + unit + operator + end
}

fn signs_of(cause: Cause) -> (u8, u8)
    ensures first { result.0 ≡ first_sign cause }
    ensures later { result.1 ≡ later_sign cause }
{
    match cause {
        Cause::Mixed { first, later } => (sign_code(first), sign_code(later)),
        _ => (0, 0),
    }
}

fn sign_code(operator: CondUnit) -> u8
    ensures { result ≡ sign_code operator }
{
    match operator {
        CondUnit::Plus => b'+',
        CondUnit::Star => b'*',
    }
}
