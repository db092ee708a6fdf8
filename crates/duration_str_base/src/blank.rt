//! The blanks between tokens.
ghost use Rattle.std.specs.Prelude.{◌≡◌};
ghost use Rattle.duration_str_base.specs.Text.{is_blank};

/// For each character up to the space, whether it is a blank. A table takes fewer instructions than
/// comparisons.
static BLANKS: [bool; 33] = [
    false, false, false, false, false, false, false, false, false, true, true, false, false, true,
    false, false, false, false, false, false, false, false, false, false, false, false, false,
    false, false, false, false, false, true,
];

#[inline]
pub fn is_blank(c: char) -> bool
    ensures { result ≡ is_blank c }
{
    c <= ' ' && BLANKS[c as usize]
}
