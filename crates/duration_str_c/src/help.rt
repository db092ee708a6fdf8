//! The help for a refused text, and what to write instead.
ghost use Rattle.std.specs.Prelude.{◌≡◌, None};
ghost use Rattle.duration_str_base.specs.Meaning.{meaning_of};
ghost use Rattle.duration_str_help.specs.Help.{help_of};
ghost use Rattle.duration_str_help.specs.Mends.{mend_of};
ghost use Rattle.duration_str_c.specs.Help.{number_of, IsHelpShown, ShowsHelp};

use crate::answer::Answer;
use crate::message::refusal_of;
use crate::{put, rules_of_bits};
use duration_str::{Fault, Help, Rules, SUGGESTION_BUFFER_SIZE};

/// Reads a text under the options whose bits are set, as `duration_str_parse_with` does, and
/// returns the number of the help for its refusal, as `Help::number` gives it. The number is 0 if
/// there is no help, or if the text is read.
///
/// If it is certain what to write in place of a part of the text, writes that to the start of the
/// buffer, with a zero byte after it, the byte at which the part starts to `start`, and its length
/// in bytes to `length`. The text in the buffer is empty if the part is to be removed, and the
/// length is 0 if something is to be inserted. If nothing is certain, writes the empty text and two
/// zeros. The rest of the buffer is unchanged.
pub fn duration_str_help(
    text: &[u8],
    options: u32,
    suggestion: &mut [u8; SUGGESTION_BUFFER_SIZE],
    start: &mut usize,
    length: &mut usize,
) -> u32
    ensures { ShowsHelp options text.now
        suggestion.old result suggestion.new start.new length.new }
{
    let mut answer = Answer::value(0);
    match refusal_of(text, options, &mut answer) {
        Ok(fault) => show_help(&fault, rules_of_bits(options), suggestion, start, length),
        Err(_) => show_no_mend(None, suggestion, start, length),
    }
}

fn show_help(
    fault: &Fault<'_>,
    rules: Rules,
    suggestion: &mut [u8; SUGGESTION_BUFFER_SIZE],
    start: &mut usize,
    length: &mut usize,
) -> u32
    ensures { IsHelpShown (help_of fault.now.text.now fault.now.cause)
        (mend_of (meaning_of rules) fault.now.text.now fault.now.cause)
        suggestion.old result suggestion.new start.new length.new }
{
    let Some(mend) = fault.mend(rules) else {
        return show_no_mend(fault.help(), suggestion, start, length);
    };
    let _ = put(
        mend.suggestion.write(&mut [0; SUGGESTION_BUFFER_SIZE]),
        suggestion,
    );
    *start = mend.front.len();
    *length = mend.replaced.len();
    number_of(fault.help())
}

fn show_no_mend(
    help: Option<Help>,
    suggestion: &mut [u8; SUGGESTION_BUFFER_SIZE],
    start: &mut usize,
    length: &mut usize,
) -> u32
    ensures { IsHelpShown help None
        suggestion.old result suggestion.new start.new length.new }
{
    let _ = put("", suggestion);
    *start = 0;
    *length = 0;
    number_of(help)
}

fn number_of(help: Option<Help>) -> u32
    ensures { result ≡ number_of help }
{
    match help {
        Some(help) => help.number(),
        None => 0,
    }
}
