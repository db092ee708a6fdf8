//! A refused text with its cause, the token at the place of a syntax fault, the help and the mend.
ghost use Rattle.std.specs.Prelude.{◌≡◌, ◌<◌, ◌≤◌, ◌++◌, ℕ, IfSome, option_map};
ghost use Rattle.std.specs.Option.{ForSome};
ghost use Rattle.std.specs.Str.{IsCharBoundary, chars};
ghost use Rattle.duration_str_refusals.specs.Faults.{IsSliceOf, first_run, found_token, run_at, token_at};
ghost use Rattle.duration_str_help.specs.Help.{help_of};
ghost use Rattle.duration_str_help.specs.Internal.Mends.{IsCutOut};
ghost use Rattle.duration_str_help.specs.Mends.{HasPieces, replacement_of, mend_of, suggestion_of};
ghost use Rattle.duration_str_base.specs.Causes.{place_of};
ghost use Rattle.duration_str_base.specs.Meaning.{meaning_of};
ghost use Rattle.duration_str_base.specs.Text.{byte_len};
ghost use Rattle.duration_str_reading.specs.Iteration.{tokens_left, source};
ghost use Rattle.duration_str_reading.specs.Tokens.{are_of_one_run};

use duration_str_base::cause::Cause;
use duration_str_base::options::Options;
use duration_str_base::packed::is_unit_letter;
use duration_str_base::rules::Rules;
use duration_str_base::slice::range_from;
use duration_str_help::help::{Help, found_at, overflow_help};
use duration_str_help::mend::{Mend, cut_out, replacement_for};
use duration_str_help::suggestion::Replacement;
use duration_str_reading::token::Tokens;

/// A refusal: the text that was read, and the cause. It prints as a message for people.
///
/// ```
/// use duration_str::{Options, parse_with};
///
/// let fault = parse_with("3ms-2ms", Options::off()).unwrap_err();
/// assert_eq!(fault.to_string(), "3ms-2ms\n   ^\nexpected ['+', '*']");
/// ```
#[derive(Clone, Copy, Debug, PartialEq, Eq, Hash)]
pub struct Fault<'a> {
    /// The whole refused text. For the cause `NotText` it is empty.
    pub text: &'a str,
    /// Why the text is refused.
    pub cause: Cause,
    /// The cause's place, if it has one, is a character boundary within the text.
    pub ghost placed: { ForSome (place_of cause) (IsCharBoundary text.now) },
}

impl<'a> Fault<'a> {
    ghost use Rattle.duration_str_refusals.specs.Faults.{IsMissingAtEnd, IsTokenLen};

    /// Returns the whole refused text. For the cause `NotText` it is empty.
    ///
    /// ```
    /// use duration_str::{Options, parse_with};
    ///
    /// assert_eq!(parse_with("1x", Options::off()).unwrap_err().text(), "1x");
    /// ```
    #[must_use]
    pub const fn text(&self) -> &'a str
        ensures { result ≡ self.now.text }
    {
        self.text
    }

    /// Returns why the text is refused.
    ///
    /// ```
    /// use duration_str::{Cause, Options, parse_with};
    ///
    /// let cause = parse_with("600y", Options::off()).unwrap_err().cause();
    /// assert_eq!(cause, Cause::Overflow { place: Some(0) });
    /// ```
    #[must_use]
    pub const fn cause(&self) -> Cause
        ensures { result ≡ self.now.cause }
    {
        self.cause
    }

    /// Returns the token that starts at the place of a syntax fault, as a slice of the text.
    ///
    /// The text is cut into tokens under these options. The result is `None` if no token starts at
    /// the place, or if the cause is not `Syntax`. If these are the options under which the text
    /// was read, a syntax fault has no token exactly if it is at the end of the text.
    ///
    /// ```text
    /// parse("3ms-2ms").unwrap_err().found(Options::off()) // Some("-")
    /// ```
    #[must_use]
    pub fn found(&self, o: Options) -> Option<&'a str>
        ensures token { IsSliceOf self.now.text.now
            (found_token o (chars self.now.text.now) self.now.cause) result }
        ensures end { IsMissingAtEnd o self.now.text.now self.now.cause result }
    {
        let Cause::Syntax { place, .. } = self.cause else {
            return None;
        };
        // To find the token at the place, it is enough to cut the text from the character before
        // the place on.
        let from = last_boundary(self.text, place.saturating_sub(1));
        token_at(Tokens::new(range_from(self.text, from), o), place - from)
    }

    /// Returns the length in bytes of the longest run of digits, or of unit letters under these
    /// options, that starts at the place of a syntax fault. Any other character there is a run of
    /// its own. The length is 0 at the end of the text, or if the cause is not `Syntax`.
    ///
    /// If these are the options under which the text was read, this is the length of what `found`
    /// returns, or 0 for `None`. This call contains no tokenizer, so a program that calls it in
    /// place of `found` is smaller.
    ///
    /// ```text
    /// parse("1h 30mints").unwrap_err().run_len(Options::off()) // 5
    /// ```
    #[must_use]
    pub fn run_len(&self, o: Options) -> usize
        ensures run { result ≡ byte_len (run_at o self.now.text.now self.now.cause) }
        ensures token { IsTokenLen o self.now.text.now self.now.cause result }
    {
        match self.cause {
            Cause::Syntax { place, .. } => first_run_len(range_from(self.text, place), o),
            _ => 0,
        }
    }

    /// Returns the help for the fault, if any. The line of `write_one_line` ends with its words.
    ///
    /// ```
    /// use duration_str::{Help, Options, parse_with};
    ///
    /// let fault = parse_with("1h, 30m", Options::off()).unwrap_err();
    /// assert_eq!(fault.help(), Some(Help::OneDuration));
    /// ```
    #[must_use]
    pub fn help(&self) -> Option<Help>
        ensures { result ≡ help_of self.now.text.now self.now.cause }
    {
        match self.cause {
            Cause::Syntax { place, expected } => found_at(self.text, place, expected).help,
            Cause::Overflow { .. } => overflow_help(self.text.as_bytes()),
            _ => None,
        }
    }

    /// Returns the suggestion for the fault, with the text before and after the part that it
    /// replaces. It returns `None` if it isn't certain what to write. `rules` must be those with
    /// which the text was read.
    ///
    /// With the suggestion, the text can be refused again by these rules, but it has no syntax
    /// fault before the end of the suggestion. The help says what the suggestion replaces:
    ///
    /// - `DidYouMean`: the word becomes the unit's name.
    /// - `Fraction`: one term replaces the number and its unit, such as `90min` for `1.5h`. Its
    ///   unit is the longest that gives a whole number and is not longer than the one in the text.
    ///   A number without a unit counts the default unit, if the end or an operator that is read
    ///   follows. There is no suggestion if the value is no whole number of nanoseconds, or 2^64
    ///   nanoseconds or more.
    /// - `LeadingPlus`: the sign is removed.
    /// - `NoPoint`: the point is removed, unless a letter, a digit or a point follows it directly.
    /// - `DigitsOnly`: `_` or `'` is removed, if exactly three digits follow it directly.
    /// - `Iso8601`: `PT` is removed, if the last character that isn't blank is an ASCII letter. It
    ///   stays if `lowercase` is on.
    /// - `Zero`: `s` is added at the end of the text, if the place is there.
    ///
    /// ```text
    /// let rules = Rules::of(Options::off());
    /// let mend = parse_by("1.5h 5x", rules).unwrap_err().mend(rules).unwrap();
    /// mend.front      // ""
    /// mend.replaced   // "1.5h"
    /// mend.suggestion // 90 and the minute
    /// mend.rest       // " 5x"
    /// ```
    #[must_use]
    pub fn mend(&self, rules: Rules) -> Option<Mend<'a>>
        ensures pieces { HasPieces
            (mend_of (meaning_of rules) self.now.text.now self.now.cause) result }
        ensures suggestion { option_map (λ new. new.suggestion) result
            ≡ suggestion_of (meaning_of rules) self.now.text.now self.now.cause }
        ensures whole { IfSome result (λ new.
            self.now.text.now ≡ new.front.now ++ (new.replaced.now ++ new.rest.now)) }
    {
        let replacement = replacement_of(self, rules)?;
        Some(cut_out(self.text, replacement))
    }
}

fn replacement_of(fault: &Fault<'_>, rules: Rules) -> Option<Replacement>
    ensures replacement { result ≡ replacement_of (meaning_of rules) fault.now.text.now fault.now.cause }
    ensures cut { IfSome result (IsCutOut fault.now.text.now) }
{
    let Cause::Syntax { place, expected } = fault.cause else {
        return None;
    };
    let found = found_at(fault.text, place, expected);
    replacement_for(fault.text, place, expected, &found, rules)
}

fn last_boundary(text: &str, mut place: usize) -> usize
    ensures bound { result ≤ place }
    ensures boundary { IsCharBoundary text.now result }
    ensures nearest { (i : ℕ) → result < i → i ≤ place → ¬ (IsCharBoundary text.now i) }
{
    while !text.is_char_boundary(place) {
        place -= 1;
    }
    place
}

fn token_at<'a>(mut tokens: Tokens<'a>, place: usize) -> Option<&'a str>
    ensures { IsSliceOf (source tokens.entry) (token_at place (tokens_left tokens.entry)) result }
{
    while let Some(token) = tokens.next() {
        if token.start == place {
            return Some(token.text);
        }
    }
    None
}

/// Returns the length in bytes of the run of like characters that a text begins with.
fn first_run_len(text: &str, o: Options) -> usize
    ensures { result ≡ byte_len (first_run o (chars text.now)) }
{
    let mut chars = text.chars();
    let Some(first) = chars.next() else {
        return 0;
    };
    let mut len = first.len_utf8();
    while let Some(c) = chars.next() {
        if !are_of_one_run(first, c, o) {
            break;
        }
        len += c.len_utf8();
    }
    len
}

fn are_of_one_run(first: char, c: char, o: Options) -> bool
    ensures { result ≡ are_of_one_run o first c }
{
    first.is_ascii_digit() && c.is_ascii_digit() || is_unit_letter(first, o) && is_unit_letter(c, o)
}
