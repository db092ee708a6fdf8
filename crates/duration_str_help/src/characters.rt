//! The classes of characters in a refused text: those that can be seen, and letters.
ghost use Rattle.std.specs.Prelude.{◌≡◌, ◌≤◌, not};
ghost use Rattle.duration_str_help.specs.Quotes.{is_plain, is_clear};
ghost use Rattle.duration_str_help.specs.Help.{is_letter};

pub fn is_clear(c: char) -> bool
    ensures { result ≡ is_clear c }
{
    is_plain(c) && c != '"' && c != '\\'
}

#[inline(always)]
pub fn is_plain(c: char) -> bool
    ensures { result ≡ is_plain c }
{
    c >= ' ' && (c <= '~' || !is_hidden(c))
}

#[inline(never)]
fn is_hidden(c: char) -> bool
    requires { 127 ≤ c }
    ensures { result ≡ not (is_plain c) }
{
    matches!(c, '\x7f'..='\u{a0}' | '\u{1680}' | '\u{2800}' | '\u{3000}')
        || matches!(c, '\u{2000}'..='\u{200f}' | '\u{2028}'..='\u{202f}' | '\u{205f}'..='\u{206f}')
        || matches!(
            c,
            '\u{ad}' | '\u{34f}' | '\u{61c}' | '\u{3164}' | '\u{feff}' | '\u{ffa0}'
        )
        || matches!(c, '\u{115f}'..='\u{1160}' | '\u{17b4}'..='\u{17b5}' | '\u{180b}'..='\u{180f}')
        || matches!(c, '\u{fe00}'..='\u{fe0f}' | '\u{fff0}'..='\u{fffb}' | '\u{1bca0}'..='\u{1bca3}')
        || matches!(c, '\u{1d173}'..='\u{1d17a}' | '\u{e0000}'..='\u{e0fff}')
}

#[inline(never)]
pub fn is_letter(c: char) -> bool
    ensures { result ≡ is_letter c }
{
    if c.is_ascii() {
        return c.is_ascii_alphabetic();
    }
    let is_sign = matches!(c, '\u{a1}'..='\u{b4}' | '\u{b6}'..='\u{bf}' | '×' | '÷')
        || matches!(c, '\u{2010}'..='\u{2bff}' | '\u{3001}'..='\u{303f}' | '\u{ff00}'..='\u{ff20}');
    is_plain(c) && !is_sign
}
