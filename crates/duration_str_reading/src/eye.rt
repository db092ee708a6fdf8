//! A text that is taken one character after another, with a count of the looks.
ghost use Rattle.std.specs.Prelude.{◌≡◌, ◌+◌, ◌<◌, ◌≤◌, ◌^◌, [], is_some, IfSome, IfNone, if◌then◌else◌, slice_range, IsUtf8, length};
ghost use Rattle.std.specs.Str.{IsCharBoundary};
ghost use Rattle.duration_str_base.specs.Internal.Positions.{Stands, ahead};
ghost use Rattle.duration_str_base.specs.Text.{width};

use duration_str_base::slice::range_from;

#[derive(Drop)]
pub(crate) struct Eye<'a> {
    text: &'a str,
    place: usize,
    looks: u64,
    ghost utf8: { ∥ IsUtf8 text.now ∥₁ },
    ghost short: { length text.now < 2 ^ 63 },
    ghost at_place: { IsCharBoundary text.now place },
}

impl<'a> Eye<'a> {
    #[inline(always)]
    pub(crate) fn new(text: &'a str) -> Eye<'a>
        ensures text { result.text.now ≡ text.now }
        ensures place { result.place ≡ 0 }
        ensures looks { result.looks ≡ 0 }
    {
        Eye {
            text,
            place: 0,
            looks: 0,
        }
    }

    #[inline(always)]
    pub(crate) fn place(&self) -> usize
        ensures { result ≡ self.now.place }
    {
        self.place
    }

    #[inline(always)]
    pub(crate) fn looks(&self) -> u64
        ensures { result ≡ self.now.looks }
    {
        self.looks
    }

    #[inline(always)]
    pub(crate) fn look(&mut self) -> Option<char>
        requires { self.old.looks + 1 < 2 ^ 64 }
        ensures some { IfSome result (Stands self.old.text.now self.old.place) }
        ensures none { IfNone result (ahead self.old.text.now self.old.place ≡ []) }
        ensures text { self.new.text ≡ self.old.text }
        ensures place { self.new.place ≡ self.old.place }
        ensures looks { self.new.looks ≡ self.old.looks + (if is_some result then 1 else 0) }
    {
        let c = character_at(self.text, self.place)?;
        self.looks += 1;
        Some(c)
    }

    #[inline(always)]
    pub(crate) fn step(&mut self, looked_at: char)
        requires { Stands self.old.text.now self.old.place looked_at }
        ensures text { self.new.text ≡ self.old.text }
        ensures place { self.new.place ≡ self.old.place + width looked_at }
        ensures inside { self.new.place ≤ length self.old.text.now }
        ensures looks { self.new.looks ≡ self.old.looks }
    {
        self.place += looked_at.len_utf8();
    }

    #[inline(always)]
    pub(crate) fn since(&self, start: usize) -> &'a str
        requires order { start ≤ self.now.place }
        requires boundary { IsCharBoundary self.now.text.now start }
        ensures { result.now ≡ slice_range self.now.text.now start self.now.place }
    {
        // SAFETY: the bytes are UTF-8, by the clause `utf8`.
        unsafe { std::str::from_utf8_unchecked(self.bytes_since(start)) }
    }

    /// Returns the bytes of what `since` returns, without checking character boundaries.
    #[inline(always)]
    pub(crate) fn bytes_since(&self, start: usize) -> &'a [u8]
        requires order { start ≤ self.now.place }
        requires boundary { IsCharBoundary self.now.text.now start }
        ensures slice { result.now ≡ slice_range self.now.text.now start self.now.place }
        ensures utf8 { IsUtf8 result.now }
    {
        &self.text.as_bytes()[start..self.place]
    }
}

#[tactic(auto, using(duration_str_base::proofs::CharacterLemmas::end_ahead, duration_str_base::proofs::CharacterLemmas::ascii_stands))]
#[inline]
fn character_at(text: &str, place: usize) -> Option<char>
    requires { IsCharBoundary text.now place }
    ensures some { IfSome result (Stands text.now place) }
    ensures none { IfNone result (ahead text.now place ≡ []) }
{
    let byte = *text.as_bytes().get(place)?;
    if byte < 128 {
        Some(char::from(byte))
    } else {
        Some(decoded_at(text, place))
    }
}

#[tactic(auto, using(duration_str_base::proofs::CharacterLemmas::stands_char))]
#[cold]
#[inline(never)]
fn decoded_at(text: &str, place: usize) -> char
    requires boundary { IsCharBoundary text.now place }
    requires inside { place < length text.now }
    ensures { Stands text.now place result }
{
    match range_from(text, place).chars().next() {
        Some(c) => c,
        None => unreachable!(),
    }
}
