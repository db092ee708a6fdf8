//! The words of the command line, and how the program ends.
ghost use Rattle.std.specs.Prelude.{◌≡◌, ◌≢◌, ◌↔◌, true, Some, IsNone, codes};
ghost use Rattle.durstr_run.specs.Ending.{status_of, error_line};

use crate::fault::RunFault;
use duration_str::Options;

/// Returns the options with the field of this name on and the other fields unchanged, or `None` if
/// the word is no option's name.
///
/// ```text
/// with_word(Options::off(), "no_calc") // Some(Options { no_calc: true, ..Options::off() })
/// with_word(Options::off(), "nocalc")  // None
/// ```
pub fn with_word(options: Options, word: &str) -> Option<Options>
    ensures no_calc { word.now ≡ codes "no_calc"
        → result ≡ Some (record options { no_calc = true }) }
    ensures lowercase { word.now ≡ codes "lowercase"
        → result ≡ Some (record options { lowercase = true }) }
    ensures cn_unit { word.now ≡ codes "cn_unit"
        → result ≡ Some (record options { cn_unit = true }) }
    ensures unknown { IsNone result
        ↔ ((word.now ≢ codes "no_calc")
        × (word.now ≢ codes "lowercase")
        × (word.now ≢ codes "cn_unit")) }
{
    match word {
        "no_calc" => Some(Options {
            no_calc: true,
            ..options
        }),
        "lowercase" => Some(Options {
            lowercase: true,
            ..options
        }),
        "cn_unit" => Some(Options {
            cn_unit: true,
            ..options
        }),
        _ => None,
    }
}

/// Returns the exit status for this result of `run`, and the line for standard error, which is
/// empty if there is none.
///
/// ```text
/// ending(Ok(false))             // (1, "")
/// ending(Err(RunFault::Memory)) // (3, "durstr: out of memory")
/// ```
pub fn ending(answer: Result<bool, RunFault>) -> (u8, &'static str)
    ensures status { result.0 ≡ status_of answer }
    ensures line { result.1.now ≡ error_line answer }
{
    match answer {
        Ok(true) => (0, ""),
        Ok(false) => (1, ""),
        Err(RunFault::Read) => (2, "durstr: read failed"),
        Err(RunFault::Write) => (2, "durstr: write failed"),
        Err(RunFault::TooLong) => (2, "durstr: input too long"),
        Err(RunFault::Memory) => (3, "durstr: out of memory"),
    }
}
