//! Slices of a text at a place that is known to be a character boundary. `&text[place..]` would
//! test that again, and would contain the code that reports a place inside a character.
ghost use Rattle.std.specs.Prelude.{◌≡◌, ◌≤◌, ◌+◌, drop, length, slice_range};
ghost use Rattle.std.specs.Str.{IsCharBoundary};
ghost use Rattle.duration_str_base.specs.Causes.{chars_before};

/// Returns `&text[..to]`.
#[inline(always)]
pub fn range_to(text: &str, to: usize) -> &str
    requires { IsCharBoundary text.now to }
    ensures value { result.now ≡ slice_range text.now 0 to }
    ensures len { length result.now ≡ to }
{
    // SAFETY: what stands before a character boundary of a text is UTF-8.
    unsafe { std::str::from_utf8_unchecked(&text.as_bytes()[..to]) }
}

/// Returns `&text[from..]`.
#[inline(always)]
pub fn range_from(text: &str, from: usize) -> &str
    requires { IsCharBoundary text.now from }
    ensures value { result.now ≡ drop from text.now }
    ensures len { length result.now + from ≡ length text.now }
{
    // SAFETY: what follows a character boundary of a text is UTF-8.
    unsafe { std::str::from_utf8_unchecked(&text.as_bytes()[from..]) }
}

/// Returns how many characters the text has before this byte.
#[tactic(auto, using(std::proofs::lemmas::Str::chars_from_encodes, crate::proofs::CharacterLemmas::chars_before_le))]
#[inline(never)]
pub fn chars_before(text: &str, place: usize) -> usize
    requires { IsCharBoundary text.now place }
    ensures count { result ≡ chars_before text.now place }
    ensures short { result ≤ length text.now }
{
    range_to(text, place).chars().count()
}
