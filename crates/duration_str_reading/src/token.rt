//! The tokens of a text: numbers, words, operators, and other single characters except blanks.
ghost use Rattle.std.specs.Prelude.{◌≡◌, ◌+◌, ◌%◌, ◌^◌, ◌≤◌, ◌<◌, [], ◌&&◌, ◌||◌, ◌==◌, length, take, is_some, Option, IsTrue, if◌then◌else◌, false, Some};
ghost use Rattle.std.specs.List.{list_all};
ghost use Rattle.std.specs.Option.{ForSome, ForNone};
ghost use Rattle.std.specs.Str.{chars};
ghost use Rattle.std.specs.Iterator.{item_count};
ghost use Rattle.duration_str_base.specs.Text.{is_blank, is_digit, is_unit_letter, number_of};
ghost use Rattle.duration_str_base.specs.Internal.Positions.{ahead, Stands, StandsAt, Passes, Stops, TakesDigits, TakesLetters};
ghost use Rattle.duration_str_reading.specs.Tokens.{tokens_of};
ghost use Rattle.duration_str_base.specs.Term.{fits};
ghost use Rattle.duration_str_base.specs.Rules.{rules_of};
ghost use Rattle.duration_str_base.specs.Meaning.{meaning_of};
ghost use Rattle.duration_str_reading.specs.declared.token.TokenStart.{TokenStart};
ghost use Rattle.duration_str_reading.specs.declared.token.TokenStart.TheVariants.{Number as a_number, Word as a_word};

use crate::eye::Eye;
use duration_str_base::blank::is_blank;
use duration_str_base::operator::CondUnit;
use duration_str_base::options::Options;
use duration_str_base::packed::{
    MODULUS, MOST_BYTES, first_number, is_unit_letter, letter_number, with_letter,
};
use duration_str_base::rules::{Rules, unit_table};
use duration_str_base::unit::TimeUnit;

/// What a token is: a number, a word with the unit that it names, if any, an operator, or another
/// character.
///
/// ```
/// use duration_str::{Options, TimeUnit, Tokens, What};
///
/// let mut tokens = Tokens::new("3 hours", Options::off());
/// assert_eq!(tokens.next().unwrap().what, What::Number);
/// assert_eq!(tokens.next().unwrap().what, What::Word(Some(TimeUnit::Hour)));
/// ```
#[derive(Clone, Copy, Debug, PartialEq, Eq, Hash)]
pub enum What {
    /// Digits.
    Number,
    /// Unit letters, with the unit that they name, if any.
    Word(Option<TimeUnit>),
    /// `+` or `*`.
    Operator(CondUnit),
    /// Any other character that is not a blank.
    Other,
}

/// A token of a text.
///
/// ```
/// use duration_str::{CondUnit, Options, Token, Tokens, What};
///
/// let plus = Token { start: 2, text: "+", what: What::Operator(CondUnit::Plus) };
/// assert_eq!(Tokens::new("1s+2m", Options::off()).nth(2), Some(plus));
/// ```
#[derive(Clone, Copy, Debug, PartialEq, Eq, Hash)]
pub struct Token<'a> {
    /// The byte of the text at which the token starts.
    pub start: usize,
    /// The token's slice of the text.
    pub text: &'a str,
    /// What the token is.
    pub what: What,
}

/// The sort of a token, which its first character decides.
#[derive(Clone, Copy)]
pub(crate) enum TokenStart {
    Number,
    Word,
    Operator(CondUnit),
    Other,
}

impl TokenStart {
    ghost use Rattle.duration_str_reading.specs.Internal.Steps.{sort_at};

    #[inline(always)]
    fn at(first: char, o: Options) -> TokenStart
        ensures { result ≡ sort_at o first }
    {
        if first.is_ascii_digit() {
            return TokenStart::Number;
        }
        if is_unit_letter(first, o) {
            return TokenStart::Word;
        }
        match CondUnit::from_char(first) {
            Some(operator) => TokenStart::Operator(operator),
            None => TokenStart::Other,
        }
    }
}

/// An iterator over the tokens of a text, in order. `looked` counts each character once, when it is
/// reached.
///
/// ```
/// use duration_str::{Options, Tokens};
///
/// let tokens = Tokens::new("13s + 29ms", Options::off());
/// let texts: Vec<&str> = tokens.map(|token| token.text).collect();
/// assert_eq!(texts, ["13", "s", "+", "29", "ms"]);
/// ```
#[derive(Drop)]
pub struct Tokens<'a> {
    eye: Eye<'a>,
    /// The character at the place, which has already been looked at, or `None` at the end.
    head: Option<char>,
    options: Options,
    ghost some: { ForSome head (Stands eye.text.now eye.place) },
    ghost none: { ForNone head (ahead eye.text.now eye.place ≡ []) },
    ghost counted: { eye.looks + length (ahead eye.text.now eye.place)
        ≡ length (chars eye.text.now) + (if is_some head then 1 else 0) },
}

impl<'a> Tokens<'a> {
    ghost use Rattle.duration_str_reading.specs.Grammar.{word};
    ghost use Rattle.duration_str_reading.specs.Iteration.{source, options_of, cut_place, looks_of};
    ghost use Rattle.duration_str_reading.specs.Iteration.{tokens_left, what_of, KeepsInput};
    ghost use Rattle.duration_str_reading.specs.Internal.Steps.{IsAhead, LooksAhead, LooksForNumber, TakesNumber};
    ghost use Rattle.duration_str_reading.specs.Internal.Steps.{TakesToken, TakesTokenWith, TakesSign};

    /// Returns an iterator over the tokens of a text, which is cut under these options.
    ///
    /// ```
    /// use duration_str::{Options, Tokens};
    ///
    /// assert_eq!(Tokens::new("13s", Options::off()).count(), 2);
    /// ```
    #[inline(always)]
    #[must_use]
    pub fn new(text: &'a str, o: Options) -> Tokens<'a>
        ensures source { source result ≡ text.now }
        ensures options { options_of result ≡ o }
        ensures left { tokens_left result ≡ tokens_of o (chars text.now) }
    {
        let mut eye = Eye::new(text);
        let head = eye.look();
        Tokens {
            eye,
            head,
            options: o,
        }
    }

    /// Returns how many times a character of the text has been looked at so far.
    ///
    /// ```
    /// use duration_str::{Options, Tokens};
    ///
    /// let mut tokens = Tokens::new("13s", Options::off());
    /// assert_eq!(tokens.by_ref().count(), 2);
    /// assert_eq!(tokens.looked(), 3);
    /// ```
    #[inline(always)]
    #[must_use]
    pub fn looked(&self) -> u64
        ensures count { result ≡ looks_of self.now }
        ensures most { result ≤ length (chars (source self.now)) }
        ensures least { length (chars (take (cut_place self.now) (source self.now))) ≤ result }
    {
        self.eye.looks()
    }

    #[inline(always)]
    pub(crate) fn place(&self) -> usize
        ensures { result ≡ cut_place self.now }
    {
        self.eye.place()
    }

    #[inline(always)]
    pub(crate) fn advance(&mut self)
        ensures kept { KeepsInput self.old self.new }
        ensures past { ForSome self.old.head
            (StandsAt (source self.old) (cut_place self.old) (cut_place self.new)) }
        ensures sign { TakesSign self.old self.new }
    {
        if let Some(c) = self.head {
            self.eye.step(c);
            self.head = self.eye.look();
        }
    }

    #[inline(always)]
    fn skip_blanks(&mut self)
        ensures kept { KeepsInput self.old self.new }
        ensures blanks { Passes is_blank
            (source self.old) (cut_place self.old) (cut_place self.new) }
        ensures stops { ForSome self.new.head (λ c. is_blank c ≡ false) }
    {
        while let Some(c) = self.head {
            if is_blank(c) {
                self.advance();
            } else {
                break;
            }
        }
    }

    #[inline(always)]
    fn take_digits(&mut self) -> u64
        ensures kept { KeepsInput self.old self.new }
        ensures digits { TakesDigits
            (source self.old) (cut_place self.old) (cut_place self.new) result }
        ensures stops { Stops is_digit (ahead (source self.new) (cut_place self.new)) }
    {
        let mut number = 0u64;
        while let Some(c) = self.head {
            if c.is_ascii_digit() {
                let digit = c as u32 - b'0' as u32;
                number = ((number as u128 * 10 + digit as u128) % MODULUS) as u64;
                self.advance();
            } else {
                break;
            }
        }
        number
    }

    #[inline(always)]
    pub(crate) fn take_number(&mut self) -> Option<u64>
        requires { IsAhead self.old (Some a_number) }
        ensures { TakesNumber self.old self.new result }
    {
        let start = self.eye.place();
        let low = self.take_digits();
        if self.eye.place() - start <= MOST_DIGITS {
            return Some(low);
        }
        fits(self.eye.bytes_since(start), low).then_some(low)
    }

    /// Takes a word's letters, and returns them packed. The first character is known to be a unit
    /// letter, and is handled before the loop, since that takes fewer instructions.
    #[inline(always)]
    fn take_letters(&mut self) -> u64
        requires { IsAhead self.old (Some a_word) }
        ensures kept { KeepsInput self.old self.new }
        ensures letters { TakesLetters (options_of self.old)
            (source self.old) (cut_place self.old) (cut_place self.new) result }
        ensures stops { Stops (is_unit_letter (options_of self.old))
            (ahead (source self.new) (cut_place self.new)) }
    {
        let Some(first) = self.head else {
            unreachable!();
        };
        let mut packed = first_number(first, self.options);
        self.advance();
        while let Some(c) = self.head {
            let Some(number) = letter_number(c, self.options) else {
                break;
            };
            packed = with_letter(packed, number);
            self.advance();
        }
        packed
    }

    #[inline(always)]
    pub(crate) fn take_word(&mut self, rules: Rules) -> Option<TimeUnit>
        requires { IsAhead self.old (Some a_word) }
        ensures { TakesToken (meaning_of rules) self.old self.new (word result) }
    {
        let start = self.eye.place();
        let packed = self.take_letters();
        if self.eye.place() - start > MOST_BYTES {
            return None;
        }
        unit_table(rules).unit_of_packed(packed)
    }

    #[inline(always)]
    fn take_token(&mut self, sort: TokenStart) -> What
        requires { IsAhead self.old (Some sort) }
        ensures { TakesTokenWith (rules_of (options_of self.old))
            self.old self.new (λ terminal. result ≡ what_of terminal) }
    {
        match sort {
            TokenStart::Number => {
                let _ = self.take_digits();
                What::Number
            }
            TokenStart::Word => What::Word(self.take_word(Rules::of(self.options))),
            TokenStart::Operator(operator) => {
                self.advance();
                What::Operator(operator)
            }
            TokenStart::Other => {
                self.advance();
                What::Other
            }
        }
    }

    #[inline(always)]
    pub(crate) fn sort_ahead(&mut self) -> Option<TokenStart>
        ensures { LooksAhead self.old self.new result }
    {
        self.skip_blanks();
        let first = self.head?;
        Some(TokenStart::at(first, self.options))
    }

    #[inline(always)]
    pub(crate) fn is_number_ahead(&mut self) -> bool
        ensures { LooksForNumber self.old self.new result }
    {
        self.skip_blanks();
        match self.head {
            Some(c) => c.is_ascii_digit(),
            None => false,
        }
    }

    /// Returns the sort of the next token, if there is one. After a number a word is most likely,
    /// so letters are tested first.
    #[inline(always)]
    pub(crate) fn sort_after_number(&mut self) -> Option<TokenStart>
        ensures { LooksAhead self.old self.new result }
    {
        if let Some(c) = self.head {
            if c.is_ascii_alphabetic() {
                return Some(TokenStart::Word);
            }
        }
        self.sort_ahead()
    }
}

impl<'a> Iterator for Tokens<'a> {
    ghost use Rattle.duration_str_reading.specs.Iteration.{tokens_left, YieldsNextToken};

    type Item = Token<'a>;

    ghost next_gives = { YieldsNextToken };

    ghost remaining = { item_count tokens_left };

    fn next(&mut self) -> Option<Token<'a>> {
        let sort = self.sort_ahead()?;
        let start = self.eye.place();
        let what = self.take_token(sort);
        let text = self.eye.since(start);
        Some(Token { start, text, what })
    }
}

/// Each number of up to 19 digits is below 2^64.
const MOST_DIGITS: usize = 19;

/// Whether the number that the digits write is below 2^64. `low` is the number modulo 2^64. Before
/// its last 19 digits, a number below 2^64 has only zeros, or zeros and then a `1`. With the `1`
/// the number is from 10^19 to below 2 * 10^19, so it is below 2^64 exactly if `low` is 10^19 or
/// more.
#[cold]
#[inline(never)]
fn fits(digits: &[u8], low: u64) -> bool
    requires long { 19 < length digits.now }
    requires digits { IsTrue (list_all is_digit digits.now) }
    requires same { low ≡ number_of digits.now % 2 ^ 64 }
    ensures { result ≡ fits (number_of digits.now) }
{
    let at = digits.len() - MOST_DIGITS - 1;
    let first = digits[at];
    are_zeros(&digits[..at])
        && (first == b'0' || first == b'1' && low >= 10_000_000_000_000_000_000)
}

fn are_zeros(digits: &[u8]) -> bool
    ensures { result ≡ list_all (λ digit. digit == 48) digits.now }
{
    digits.iter().all(|digit| *digit == b'0')
}
