//! The report of a fault: its line, or the text, a caret and its line.
ghost use Rattle.std.specs.Prelude.{◌≡◌, ◌*◌, ◌<◌, ◌≤◌, length};
ghost use Rattle.std.specs.List.{list_all};
ghost use Rattle.std.specs.Str.{chars};
ghost use Rattle.duration_str_base.specs.Meaning.{meaning_of};
ghost use Rattle.duration_str_refusals.specs.Messages.{laid_out};
ghost use Rattle.duration_str_help.specs.Quotes.{is_clear};
ghost use Rattle.duration_str_refusals.specs.OneLine.{one_line_of};
ghost use Rattle.duration_str_refusals.specs.Report.{report_of, is_clear_text, columns_of};
ghost use Rattle.duration_str_base.specs.Rules.{Rules as AnyRules};
ghost use Rattle.duration_str_refusals.specs.declared.report.TheConstants.{REPORT_BUFFER_SIZE};

use crate::fault::Fault;
use crate::layout::Layout;
use crate::one_line::ONE_LINE_BUFFER_SIZE;
use duration_str_base::cause::Cause;
use duration_str_base::rules::Rules;
use duration_str_base::slice::range_to;
use duration_str_help::characters::is_clear;

/// The size of a buffer that has room for every report: 80 characters of four bytes, two spaces for
/// each of them before the caret, the caret, two line feeds, and a line.
pub const REPORT_BUFFER_SIZE: usize = 80 * 4 + 80 * 2 + 3 + ONE_LINE_BUFFER_SIZE;

const MOST_ABOVE: usize = 80;

impl Fault<'_> {
    /// Writes a report of the fault, for a terminal, to the start of a buffer, and returns it. The
    /// report is the text, below it a caret at the place of the syntax fault, and below that the
    /// line of `write_one_line` by these rules.
    ///
    /// The report is the line alone if the cause is not `Syntax`, if the text has more than 80
    /// characters, or if the line would escape a character of the text. The buffer's old contents
    /// do not matter. The call allocates nothing and cannot fail.
    ///
    /// ```text
    /// let rules = Rules::of(Options::off());
    /// let mut buffer = [0; REPORT_BUFFER_SIZE];
    /// parse_by("5 mins", rules).unwrap_err().write_report(rules, &mut buffer)
    /// // 5 mins
    /// //   ^
    /// // unknown unit "mins" at column 3 (did you mean "min"?)
    /// ```
    #[must_use]
    pub fn write_report<'b>(
        &self,
        rules: Rules,
        buffer: &'b mut [u8; REPORT_BUFFER_SIZE],
    ) -> &'b str
        ensures text { result.now ≡ report_of (meaning_of rules) self.now.text.now self.now.cause }
        ensures short { length result.now < REPORT_BUFFER_SIZE }
    {
        let mut line = [0; ONE_LINE_BUFFER_SIZE];
        let line = self.write_one_line(rules, &mut line);
        match self.report_layout().message(buffer, self.text, line) {
            Some(report) => report,
            // The longest report fits.
            None => unreachable!(),
        }
    }

    fn report_layout(&self) -> Layout
        ensures { (r : AnyRules) →
            laid_out result self.now.text.now (one_line_of r self.now.text.now self.now.cause)
            ≡ report_of r self.now.text.now self.now.cause }
    {
        match self.cause {
            Cause::Syntax { place, .. } if is_clear_text(self.text) => Layout::Caret {
                spaces: columns_of(range_to(self.text, place)),
            },
            _ => Layout::Line,
        }
    }
}

#[tactic(auto, using(std::proofs::lemmas::Str::chars_from_encodes))]
fn is_clear_text(text: &str) -> bool
    ensures { result ≡ is_clear_text (chars text.now) }
{
    text.chars().count() <= MOST_ABOVE && are_clear(text)
}

fn are_clear(text: &str) -> bool
    ensures { result ≡ list_all is_clear (chars text.now) }
{
    text.chars().all(is_clear)
}

fn columns_of(text: &str) -> usize
    ensures columns { result ≡ columns_of (chars text.now) }
    ensures short { result ≤ 2 * length text.now }
{
    let mut columns = 0;
    let mut chars = text.chars();
    while let Some(c) = chars.next() {
        columns += 1 + usize::from(c >= '\u{2e80}');
    }
    columns
}
