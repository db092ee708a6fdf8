//! Durations printed in a format.
ghost use Rattle.std.specs.Prelude.{◌≡◌, ◌+◌, ◌*◌, ◌<◌, ◌≤◌, ◌∷◌, ◌⊎◌, IfSome, IfNone, IsUtf8, take, drop};
ghost use Rattle.std.specs.Str.{chars};
ghost use Rattle.duration_str_printing.specs.Format.{most_len};
ghost use Rattle.duration_str_printing.specs.declared.format.Style.TheVariants.{Short};
ghost use Rattle.duration_str_c.specs.Format.{format_of, style_numbered, units_of, IsFormatted};

use crate::put;
use crate::rounding::given;
use duration_str::{FORMAT_BUFFER_SIZE, Format, Style, Units, write_rounded};

/// Rounds a duration of `secs` seconds and `nanos` nanoseconds, and prints it in the units of a
/// set, in at most `parts` parts and in a style, to the start of the buffer, with a zero byte after
/// it. Returns the length of the text in bytes, without the zero. The rest of the buffer is
/// unchanged.
///
/// In the set the bit 2^n stands for the unit at index n of `UNITS`: 1 is the year, 1,024 is the
/// nanosecond, and 2,047 is all units. The ways of rounding are 0 for none, 1 for down, 2 for the
/// nearest and 3 for up. The styles are 0 for short, 1 for compact and 2 for long. If the duration
/// is 2^64 seconds or more, `units` is 0 or above 2,047, `rounding` is above 3, `style` is above 2,
/// or there is nothing to round up to, the call returns 0, and the text is empty.
pub fn duration_str_format_with(
    secs: u64,
    nanos: u64,
    units: u32,
    parts: u32,
    rounding: u32,
    style: u32,
    buffer: &mut [u8; FORMAT_BUFFER_SIZE],
) -> usize
    ensures text { 0 < units → units < 2048 → style ≤ 2
        → IsFormatted rounding (format_of units parts (style_numbered style))
        (secs * 1_000_000_000 + nanos) (chars (take result buffer.new)) }
    ensures utf8 { IsUtf8 (take result buffer.new) }
    ensures rest { drop result buffer.new ≡ 0 ∷ drop (result + 1) buffer.old }
    ensures short { result ≤ most_len (style_numbered style) }
    ensures refused { (units ≡ 0) ⊎ ((2048 ≤ units) ⊎ (2 < style)) → result ≡ 0 }
{
    let Some(format) = format_of(units, parts, style) else {
        return put("", buffer);
    };
    let Some((duration, rounding)) = given(secs, nanos, rounding) else {
        return put("", buffer);
    };
    let mut printed = [0; FORMAT_BUFFER_SIZE];
    match write_rounded(&duration, format, rounding, &mut printed) {
        Some(text) => put(text, buffer),
        None => put("", buffer),
    }
}

fn format_of(units: u32, parts: u32, style: u32) -> Option<Format>
    ensures format { IfSome result (λ format. (0 < units) × (units < 2048) × (style ≤ 2)
        × (format ≡ format_of units parts (style_numbered style))) }
    ensures none { IfNone result ((units ≡ 0) ⊎ ((2048 ≤ units) ⊎ (2 < style))) }
{
    let style = style_numbered(style)?;
    Some(short_format_of(units, parts)?.style(style))
}

pub(crate) fn short_format_of(units: u32, parts: u32) -> Option<Format>
    ensures format { IfSome result (λ format. (0 < units) × (units < 2048)
        × (format ≡ format_of units parts Short)) }
    ensures none { IfNone result ((units ≡ 0) ⊎ (2048 ≤ units)) }
{
    let mut format = Format::whole().parts(parts as usize);
    format.units = units_of(units)?;
    Some(format)
}

fn units_of(bits: u32) -> Option<Units>
    ensures some { IfSome result (λ units. (0 < bits) × (bits < 2048) × (units ≡ units_of bits)) }
    ensures none { IfNone result ((bits ≡ 0) ⊎ (2048 ≤ bits)) }
{
    if bits == 0 {
        return None;
    }
    match u16::try_from(bits) {
        Ok(bits) => Units::from_bits(bits),
        Err(_) => None,
    }
}

fn style_numbered(number: u32) -> Option<Style>
    ensures style { IfSome result (λ style. (number ≤ 2) × (style ≡ style_numbered number)) }
    ensures none { IfNone result (2 < number) }
{
    match number {
        0 => Some(Style::Short),
        1 => Some(Style::Compact),
        2 => Some(Style::Long),
        _ => None,
    }
}
