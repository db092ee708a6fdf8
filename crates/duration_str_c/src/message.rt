//! The line, the reason and the report about a refused text.
ghost use Rattle.std.specs.Prelude.{◌≡◌, ◌+◌, ◌<◌, ◌≤◌, ◌∷◌, length, take, drop, IsUtf8, IfOk, IfErr};
ghost use Rattle.std.specs.Str.{chars};
ghost use Rattle.duration_str_refusals.specs.declared.one_line.TheConstants.{MAX_ONE_LINE_LEN};
ghost use Rattle.duration_str_refusals.specs.declared.report.TheConstants.{REPORT_BUFFER_SIZE};
ghost use Rattle.duration_str_base.specs.Meaning.{meaning_of};
ghost use Rattle.duration_str_refusals.specs.OneLine.{one_line_of, reason_of};
ghost use Rattle.duration_str_refusals.specs.Report.{report_of};
ghost use Rattle.duration_str_reading.specs.Reading.{IsRefused};
ghost use Rattle.duration_str_c.specs.Answers.{AreOptions, IsAnswerTo, rules_of_bits};
ghost use Rattle.duration_str_c.specs.Messages.{IsShown, IsSaidOf, ShowsRefusal};

use crate::answer::{Answer, refused};
use crate::{are_options, options_of_bits, put, read_by, rules_of_bits, text_of};
use duration_str::{Cause, Fault, ONE_LINE_BUFFER_SIZE, REPORT_BUFFER_SIZE, Rules};

/// Reads a text under the options whose bits are set, as `duration_str_parse_with` does, and writes
/// a line to the start of the buffer, with a zero byte after it. The line says what is wrong with
/// the text, and is empty if the text is read. Returns the length of the line in bytes, without the
/// zero. The rest of the buffer is unchanged.
pub fn duration_str_one_line(
    text: &[u8],
    options: u32,
    answer: &mut Answer,
    buffer: &mut [u8; ONE_LINE_BUFFER_SIZE],
) -> usize
    ensures answers { IsAnswerTo options text.now answer.new }
    ensures text { ShowsRefusal (one_line_of (rules_of_bits options) text.now)
        options text.now buffer.old result buffer.new }
    ensures utf8 { IsUtf8 (take result buffer.new) }
    ensures rest { drop result buffer.new ≡ 0 ∷ drop (result + 1) buffer.old }
    ensures short { result ≤ MAX_ONE_LINE_LEN }
{
    match refusal_of(text, options, answer) {
        Ok(fault) => show_one_line(&fault, rules_of_bits(options), buffer),
        Err(line) => show(line, buffer),
    }
}

/// Does what `duration_str_one_line` does, but writes the reason, which is the line without its
/// column.
pub fn duration_str_reason(
    text: &[u8],
    options: u32,
    answer: &mut Answer,
    buffer: &mut [u8; ONE_LINE_BUFFER_SIZE],
) -> usize
    ensures answers { IsAnswerTo options text.now answer.new }
    ensures text { ShowsRefusal (reason_of (rules_of_bits options) text.now)
        options text.now buffer.old result buffer.new }
    ensures utf8 { IsUtf8 (take result buffer.new) }
    ensures rest { drop result buffer.new ≡ 0 ∷ drop (result + 1) buffer.old }
    ensures short { result ≤ MAX_ONE_LINE_LEN }
{
    match shared_refusal_of(text, options, answer) {
        Ok(fault) => show_reason(&fault, rules_of_bits(options), buffer),
        Err(line) => show(line, buffer),
    }
}

/// Does what `duration_str_one_line` does, but writes the report. For most syntax faults it is the
/// text, a caret below the place, and the line. For other faults it is the line.
pub fn duration_str_report(
    text: &[u8],
    options: u32,
    answer: &mut Answer,
    buffer: &mut [u8; REPORT_BUFFER_SIZE],
) -> usize
    ensures answers { IsAnswerTo options text.now answer.new }
    ensures text { ShowsRefusal (report_of (rules_of_bits options) text.now)
        options text.now buffer.old result buffer.new }
    ensures utf8 { IsUtf8 (take result buffer.new) }
    ensures rest { drop result buffer.new ≡ 0 ∷ drop (result + 1) buffer.old }
    ensures short { result < REPORT_BUFFER_SIZE }
{
    match shared_refusal_of(text, options, answer) {
        Ok(fault) => show_report(&fault, rules_of_bits(options), buffer),
        Err(line) => show(line, buffer),
    }
}

/// Reads the bytes, and writes the answer. Returns the fault if the text has one, and otherwise as
/// `Err` the line to show. That line is empty if the text is read.
#[inline(always)]
pub(crate) fn refusal_of<'a>(
    bytes: &'a [u8],
    options: u32,
    answer: &mut Answer,
) -> Result<Fault<'a>, &'static str>
    ensures answers { IsAnswerTo options bytes.now answer.new }
    ensures refused { IfOk result (λ fault. (fault.text.now ≡ bytes.now) × AreOptions options
        × IsUtf8 bytes.now
        × IsRefused (rules_of_bits options) (chars bytes.now) fault.cause) }
    ensures said { IfErr result (λ line. IsSaidOf options bytes.now line.now) }
{
    if !are_options(options) {
        *answer = Answer::unknown_option();
        return Err("unknown option");
    }
    let Some(text) = text_of(bytes) else {
        *answer = Answer::refusal(Cause::NotText { optional: false }, 0);
        return Err("not UTF-8");
    };
    match read_by(text, options) {
        Ok(nanos) => {
            *answer = Answer::value(nanos);
            Err("")
        }
        Err(fault) => {
            *answer = refused(&fault, options_of_bits(options));
            Ok(fault)
        }
    }
}

/// Does what `refusal_of` does. It is not inline, so that the calls for the reason and for the
/// report share one copy.
#[inline(never)]
fn shared_refusal_of<'a>(
    bytes: &'a [u8],
    options: u32,
    answer: &mut Answer,
) -> Result<Fault<'a>, &'static str>
    ensures answers { IsAnswerTo options bytes.now answer.new }
    ensures refused { IfOk result (λ fault. (fault.text.now ≡ bytes.now) × AreOptions options
        × IsUtf8 bytes.now
        × IsRefused (rules_of_bits options) (chars bytes.now) fault.cause) }
    ensures said { IfErr result (λ line. IsSaidOf options bytes.now line.now) }
{
    refusal_of(bytes, options, answer)
}

fn show_one_line(fault: &Fault<'_>, rules: Rules, buffer: &mut [u8; ONE_LINE_BUFFER_SIZE]) -> usize
    ensures shown { IsShown (one_line_of (meaning_of rules) fault.now.text.now fault.now.cause)
        buffer.old result buffer.new }
    ensures utf8 { IsUtf8 (take result buffer.new) }
    ensures short { result ≤ MAX_ONE_LINE_LEN }
{
    let mut line = [0; ONE_LINE_BUFFER_SIZE];
    put(fault.write_one_line(rules, &mut line), buffer)
}

fn show_reason(fault: &Fault<'_>, rules: Rules, buffer: &mut [u8; ONE_LINE_BUFFER_SIZE]) -> usize
    ensures shown { IsShown (reason_of (meaning_of rules) fault.now.text.now fault.now.cause)
        buffer.old result buffer.new }
    ensures utf8 { IsUtf8 (take result buffer.new) }
    ensures short { result ≤ MAX_ONE_LINE_LEN }
{
    let mut reason = [0; ONE_LINE_BUFFER_SIZE];
    put(fault.write_reason(rules, &mut reason), buffer)
}

fn show_report(fault: &Fault<'_>, rules: Rules, buffer: &mut [u8; REPORT_BUFFER_SIZE]) -> usize
    ensures shown { IsShown (report_of (meaning_of rules) fault.now.text.now fault.now.cause)
        buffer.old result buffer.new }
    ensures utf8 { IsUtf8 (take result buffer.new) }
    ensures short { result < REPORT_BUFFER_SIZE }
{
    let mut report = [0; REPORT_BUFFER_SIZE];
    put(fault.write_report(rules, &mut report), buffer)
}

fn show(text: &str, buffer: &mut [u8]) -> usize
    ensures shown { IsShown text.now buffer.old result buffer.new }
    ensures utf8 { result < length buffer.new → IsUtf8 (take result buffer.new) }
{
    if text.len() < buffer.len() {
        return put(text, buffer);
    }
    text.len()
}
