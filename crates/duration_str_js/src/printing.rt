//! The calls that print and count.
ghost use Rattle.std.specs.Prelude.{◌≡◌, ◌+◌, ◌%◌, ◌^◌, ◌<◌, IfNone, IfSome};
ghost use Rattle.std.specs.Str.{chars};
ghost use Rattle.duration_str_printing.specs.Breakdown.{nanos_left, parts_left, sum_of_parts};
ghost use Rattle.duration_str_printing.specs.Format.{set_of};
ghost use Rattle.duration_str_printing.specs.declared.format.Style.TheVariants.{Short};
ghost use Rattle.duration_str_printing.specs.Rounding.{IsPrintedRounded, NoneShown};
ghost use Rattle.duration_str_base.specs.Units.{rank_of};
ghost use Rattle.duration_str_js.specs.declared.printing.TheConstants.{UNIT_COUNT};
ghost use Rattle.duration_str_js.specs.Printing.{IsCounted, format_of, rounding_numbered, style_numbered, units_of, units_among, with_counts};

use duration_str::{
    Breakdown, FORMAT_BUFFER_SIZE, Format, Rounding, Style, TimeUnit, UNITS, Units, write_rounded,
};
use std::time::Duration;

/// How many units there are.
pub const UNIT_COUNT: usize = UNITS.len();

/// Prints a duration of this many nanoseconds in the units of a set, in at most `parts` parts, and
/// returns the text.
///
/// In the set the bit 2^n stands for the unit at index n of `UNITS`. A set with further bits is all
/// units. For 0 the duration is not rounded. Otherwise it is first rounded to one that prints
/// whole: for 1 down, for 2 to the nearest, and for greater numbers up. The styles are 0 for short,
/// 1 for compact, and greater numbers for long.
///
/// The result is `None` if nothing is long enough to round up to. JavaScript passes at least one
/// unit and one part, so there is always something.
pub fn print(
    nanos: u64,
    units: u16,
    parts: usize,
    rounding: u32,
    style: u32,
    buffer: &mut [u8; FORMAT_BUFFER_SIZE],
) -> Option<&str>
    ensures some { IfSome result (λ text. IsPrintedRounded (rounding_numbered rounding)
        (format_of units parts (style_numbered style)) nanos (chars text.now)) }
    ensures none { IfNone result (NoneShown (rounding_numbered rounding)
        (format_of units parts (style_numbered style)) nanos) }
{
    let format = format_of(units, parts).style(style_numbered(style));
    let duration = Duration::from_nanos(nanos);
    write_rounded(&duration, format, rounding_numbered(rounding), buffer)
}

/// Counts the parts of a duration of this many nanoseconds, in the units and parts and with the
/// rounding of `print`. Returns the set of the units that have a part. Writes their counts, each at
/// the index of its unit in `UNITS`, and the nanoseconds that no part has. The other counts are
/// unchanged. The lowest 64 bits of each number are written.
///
/// If the result is `None`, as that of `print`, nothing is written.
pub fn count(
    nanos: u64,
    units: u16,
    parts: usize,
    rounding: u32,
    counts: &mut [u64; UNIT_COUNT],
    rest: &mut u64,
) -> Option<Units>
    ensures some { IfSome result (λ counted. IsCounted (rounding_numbered rounding)
        (format_of units parts Short) nanos counts.old counts.new rest.new counted) }
    ensures none { IfNone result (NoneShown (rounding_numbered rounding)
        (format_of units parts Short) nanos) }
    ensures unchanged { IfNone result ((counts.new ≡ counts.old) × (rest.new ≡ rest.old)) }
{
    let format = format_of(units, parts);
    let duration = Duration::from_nanos(nanos);
    let mut parts = Breakdown::rounded(&duration, format, rounding_numbered(rounding))?;
    let counted = count_parts(&mut parts, counts);
    *rest = low_bits(parts.rest());
    Some(counted)
}

fn count_parts(parts: &mut Breakdown, counts: &mut [u64; UNIT_COUNT]) -> Units
    ensures counts { counts.new ≡ with_counts counts.old (parts_left parts.old) }
    ensures units { result ≡ set_of (units_among (parts_left parts.old)) }
    ensures rest { nanos_left parts.old ≡ sum_of_parts (parts_left parts.old) + nanos_left parts.new }
{
    let mut counted = Units::NONE;
    while let Some((unit, count)) = parts.next() {
        counts[rank(unit)] = low_bits(count);
        counted = counted.with(unit);
    }
    counted
}

fn rank(unit: TimeUnit) -> usize
    ensures value { result ≡ rank_of unit }
    ensures inside { result < UNIT_COUNT }
{
    unit as usize
}

fn low_bits(number: u128) -> u64
    ensures { result ≡ number % 2 ^ 64 }
{
    (number % (1 << 64)) as u64
}

fn format_of(units: u16, parts: usize) -> Format
    ensures { result ≡ format_of units parts Short }
{
    let mut format = Format::whole().parts(parts);
    format.units = units_of(units);
    format
}

fn units_of(bits: u16) -> Units
    ensures { result ≡ units_of bits }
{
    match Units::from_bits(bits) {
        Some(units) => units,
        None => Units::ALL,
    }
}

fn style_numbered(number: u32) -> Style
    ensures { result ≡ style_numbered number }
{
    match number {
        0 => Style::Short,
        1 => Style::Compact,
        _ => Style::Long,
    }
}

fn rounding_numbered(number: u32) -> Option<Rounding>
    ensures { result ≡ rounding_numbered number }
{
    match number {
        0 => None,
        1 => Some(Rounding::Down),
        2 => Some(Rounding::Nearest),
        _ => Some(Rounding::Up),
    }
}
