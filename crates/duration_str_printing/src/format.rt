//! How a duration is printed: its units, the greatest number of parts, and the style.
ghost use Rattle.std.specs.Prelude.{◌≡◌, ◌==◌, ◌&&◌, ◌||◌, ◌<◌, ◌≤◌, [], ◌∷◌, IfNone, IfSome, None, Some, nat_le, not};
ghost use Rattle.duration_str_base.specs.declared.unit.TimeUnit.{TimeUnit};
ghost use Rattle.duration_str_base.specs.Internal.UnitTable.{printed_row};
ghost use Rattle.duration_str_printing.specs.Format.{units_of};
ghost use Rattle.duration_str_base.specs.Units.{nanos_of};
ghost use Rattle.duration_str_printing.specs.Format.{down_to, intersection, is_in, is_one_of, set_of, up_to, whole_format, with_unit, without_unit, units_within, zero_unit};

use duration_str_base::unit::{PRINTED, Printed, TimeUnit, UNITS};

/// How a duration is printed: the units, the greatest number of parts, and the style. A part is a
/// count with its unit, such as `3min`.
///
/// Start from [`Format::whole`], since a later version may have more fields. `largest`, `smallest`,
/// `only` and `without` each take units out of the set. So their order does not matter, and none of
/// them brings a unit back.
///
/// ```
/// use duration_str::{FORMAT_BUFFER_SIZE, Format, TimeUnit, write_format};
/// use std::time::Duration;
///
/// let days = Format::whole().largest(TimeUnit::Day);
/// let mut buffer = [0; FORMAT_BUFFER_SIZE];
/// assert_eq!(write_format(&Duration::new(120 * 86_400, 5), days, &mut buffer), "120d 5ns");
/// ```
#[derive(Clone, Copy, Debug, PartialEq, Eq, Hash)]
pub struct Format {
    /// The units that the parts can have. If the set is empty, every duration prints as zero
    /// seconds, such as `0s`.
    pub units: Units,
    /// The greatest number of parts. If it is 0, every duration prints as a duration of 0 does.
    pub parts: usize,
    /// How the parts are written.
    pub style: Style,
}

/// A set of units.
///
/// ```
/// use duration_str::{FORMAT_BUFFER_SIZE, Format, TimeUnit, Units, write_format};
/// use std::time::Duration;
///
/// let half_a_year = Duration::new(180 * 86_400, 0);
/// let mut buffer = [0; FORMAT_BUFFER_SIZE];
/// let mut usual = Format::whole();
/// usual.units = Units::ALL.without(TimeUnit::Quarter).without(TimeUnit::Week);
/// assert_eq!(write_format(&half_a_year, usual, &mut buffer), "6mon");
/// ```
#[derive(Clone, Copy, Debug, PartialEq, Eq, Hash)]
pub struct Units {
    /// The bit 2^n says whether the set has the unit at index n of `UNITS`.
    bits: u16,
}

impl Units {
    /// All units.
    pub const ALL: Units = Units { bits: 0x7FF };

    /// No unit.
    pub const NONE: Units = Units { bits: 0 };

    /// Returns the set that these bits stand for. The bit 2^n stands for the unit at index n of
    /// `UNITS`: 1 is the year, 2 is the quarter, and 1,024 is the nanosecond. The result is `None`
    /// if a bit above that of the nanosecond is set.
    ///
    /// ```
    /// use duration_str::{TimeUnit, Units};
    ///
    /// assert_eq!(Units::from_bits(2_047), Some(Units::ALL));
    /// assert_eq!(Units::from_bits(1), Some(Units::NONE.with(TimeUnit::Year)));
    /// assert_eq!(Units::from_bits(2_048), None);
    /// ```
    #[inline]
    #[must_use]
    pub const fn from_bits(bits: u16) -> Option<Units>
        ensures some { bits < 2_048 → result ≡ Some (record { bits = bits }) }
        ensures none { 2_048 ≤ bits → result ≡ None }
    {
        if bits < 2_048 {
            Some(Units { bits })
        } else {
            None
        }
    }

    /// Returns the bits that stand for the set, as [`Units::from_bits`] takes them.
    ///
    /// ```
    /// use duration_str::Units;
    ///
    /// assert_eq!(Units::ALL.bits(), 2_047);
    /// ```
    #[inline]
    #[must_use]
    pub const fn bits(self) -> u16
        ensures { result ≡ self.bits }
    {
        self.bits
    }

    /// Returns the set of these units. Their order does not matter, and a unit may occur twice.
    ///
    /// ```
    /// use duration_str::{TimeUnit, Units};
    ///
    /// let days = Units::of(&[TimeUnit::Day, TimeUnit::Year]);
    /// assert_eq!(days, Units::NONE.with(TimeUnit::Year).with(TimeUnit::Day));
    /// ```
    #[must_use]
    pub const fn of(units: &[TimeUnit]) -> Units
        ensures value { result ≡ set_of units.now }
        ensures units { (u : TimeUnit) → is_in result u ≡ is_one_of units.now u }
    {
        let mut set = Units::NONE;
        let mut i = 0;
        while i < units.len() {
            set = set.with(units[i]);
            i += 1;
        }
        set
    }

    #[inline]
    const fn intersection(self, other: Units) -> Units
        ensures value { result ≡ intersection self other }
        ensures units { (u : TimeUnit) → is_in result u ≡ (is_in self u && is_in other u) }
    {
        Units {
            bits: self.bits & other.bits,
        }
    }

    /// Returns whether the unit is in the set.
    ///
    /// ```
    /// use duration_str::{TimeUnit, Units};
    ///
    /// assert!(Units::ALL.contains(TimeUnit::Week));
    /// assert!(!Units::NONE.contains(TimeUnit::Week));
    /// ```
    #[inline]
    #[must_use]
    pub const fn contains(self, unit: TimeUnit) -> bool
        ensures { result ≡ is_in self unit }
    {
        self.bits >> unit.rank() & 1 == 1
    }

    /// Returns the set with this unit added.
    ///
    /// ```
    /// use duration_str::{TimeUnit, Units};
    ///
    /// assert!(Units::NONE.with(TimeUnit::Week).contains(TimeUnit::Week));
    /// ```
    #[inline]
    #[must_use]
    pub const fn with(self, unit: TimeUnit) -> Units
        ensures value { result ≡ with_unit unit self }
        ensures units { (u : TimeUnit)
            → is_in result u ≡ (nanos_of u == nanos_of unit || is_in self u) }
    {
        Units {
            bits: self.bits | 1 << unit.rank(),
        }
    }

    /// Returns the set without this unit.
    ///
    /// ```
    /// use duration_str::{TimeUnit, Units};
    ///
    /// assert!(!Units::ALL.without(TimeUnit::Week).contains(TimeUnit::Week));
    /// ```
    #[inline]
    #[must_use]
    pub const fn without(self, unit: TimeUnit) -> Units
        ensures value { result ≡ without_unit unit self }
        ensures units { (u : TimeUnit)
            → is_in result u ≡ (is_in self u && not (nanos_of u == nanos_of unit)) }
    {
        Units {
            bits: self.bits & !(1 << unit.rank()),
        }
    }

    #[inline]
    pub(crate) const fn up_to(self, largest: TimeUnit) -> Units
        ensures value { result ≡ up_to largest self }
        ensures units { (u : TimeUnit)
            → is_in result u ≡ (is_in self u && nat_le (nanos_of u) (nanos_of largest)) }
    {
        Units {
            bits: self.bits >> largest.rank() << largest.rank(),
        }
    }

    #[inline]
    const fn down_to(self, smallest: TimeUnit) -> Units
        ensures value { result ≡ down_to smallest self }
        ensures units { (u : TimeUnit)
            → is_in result u ≡ (is_in self u && nat_le (nanos_of smallest) (nanos_of u)) }
    {
        Units {
            bits: self.bits % (2 << smallest.rank()),
        }
    }
}

/// How the parts of a printed duration are written.
#[derive(Clone, Copy, Debug, PartialEq, Eq, Hash)]
pub enum Style {
    /// `1h 30min`
    Short,
    /// `1h30min`
    Compact,
    /// `1 hour 30 minutes`
    Long,
}

impl Format {
    /// Returns the format with all units, up to 11 parts and the short style. It leaves nothing
    /// out: a duration prints as `write_human` prints it.
    ///
    /// ```
    /// assert_eq!(duration_str::Format::whole().parts, 11);
    /// ```
    #[must_use]
    pub const fn whole() -> Format
        ensures { result ≡ whole_format }
    {
        Format {
            units: Units::ALL,
            parts: UNITS.len(),
            style: Style::Short,
        }
    }

    /// Returns the same format without the units that are not in this list.
    ///
    /// ```
    /// use duration_str::{FORMAT_BUFFER_SIZE, Format, TimeUnit, write_format};
    /// use std::time::Duration;
    ///
    /// let days = Format::whole().only(&[TimeUnit::Year, TimeUnit::Day]);
    /// let mut buffer = [0; FORMAT_BUFFER_SIZE];
    /// assert_eq!(write_format(&Duration::new(400 * 86_400, 0), days, &mut buffer), "1y 35d");
    /// ```
    #[inline]
    #[must_use]
    pub const fn only(self, units: &[TimeUnit]) -> Format
        ensures { result ≡ record self { units = intersection self.units (set_of units.now) } }
    {
        Format {
            units: self.units.intersection(Units::of(units)),
            ..self
        }
    }

    /// Returns the same format without this unit.
    ///
    /// ```
    /// use duration_str::{FORMAT_BUFFER_SIZE, Format, TimeUnit, write_format};
    /// use std::time::Duration;
    ///
    /// let usual = Format::whole().without(TimeUnit::Quarter).without(TimeUnit::Week);
    /// let mut buffer = [0; FORMAT_BUFFER_SIZE];
    /// assert_eq!(write_format(&Duration::new(180 * 86_400, 0), usual, &mut buffer), "6mon");
    /// ```
    #[inline]
    #[must_use]
    pub const fn without(self, unit: TimeUnit) -> Format
        ensures { result ≡ record self { units = without_unit unit self.units } }
    {
        Format {
            units: self.units.without(unit),
            ..self
        }
    }

    /// Returns the same format without the units that are longer than this one.
    ///
    /// ```
    /// use duration_str::{FORMAT_BUFFER_SIZE, Format, TimeUnit, write_format};
    /// use std::time::Duration;
    ///
    /// let minutes = Format::whole().largest(TimeUnit::Minute);
    /// let mut buffer = [0; FORMAT_BUFFER_SIZE];
    /// assert_eq!(write_format(&Duration::new(5_430, 0), minutes, &mut buffer), "90min 30s");
    /// ```
    #[inline]
    #[must_use]
    pub const fn largest(self, largest: TimeUnit) -> Format
        ensures { result ≡ record self { units = up_to largest self.units } }
    {
        Format {
            units: self.units.up_to(largest),
            ..self
        }
    }

    /// Returns the same format without the units that are shorter than this one.
    ///
    /// ```
    /// use duration_str::{FORMAT_BUFFER_SIZE, Format, TimeUnit, write_format};
    /// use std::time::Duration;
    ///
    /// let mut buffer = [0; FORMAT_BUFFER_SIZE];
    /// let minutes = Format::whole().smallest(TimeUnit::Minute);
    /// assert_eq!(write_format(&Duration::new(5_430, 0), minutes, &mut buffer), "1h 30min");
    /// assert_eq!(write_format(&Duration::new(30, 0), minutes, &mut buffer), "0min");
    /// ```
    #[inline]
    #[must_use]
    pub const fn smallest(self, smallest: TimeUnit) -> Format
        ensures { result ≡ record self { units = down_to smallest self.units } }
    {
        Format {
            units: self.units.down_to(smallest),
            ..self
        }
    }

    /// Returns the same format with at most `parts` parts.
    ///
    /// ```
    /// use duration_str::{FORMAT_BUFFER_SIZE, Format, write_format};
    /// use std::time::Duration;
    ///
    /// let one_part = Format::whole().parts(1);
    /// let mut buffer = [0; FORMAT_BUFFER_SIZE];
    /// assert_eq!(write_format(&Duration::new(5_430, 0), one_part, &mut buffer), "1h");
    /// ```
    #[inline]
    #[must_use]
    pub const fn parts(self, parts: usize) -> Format
        ensures { result ≡ record self { parts = parts } }
    {
        Format { parts, ..self }
    }

    /// Returns the same format in this style.
    ///
    /// ```
    /// use duration_str::{FORMAT_BUFFER_SIZE, Format, Style, write_format};
    /// use std::time::Duration;
    ///
    /// let long = Format::whole().style(Style::Long);
    /// let mut buffer = [0; FORMAT_BUFFER_SIZE];
    /// assert_eq!(write_format(&Duration::new(5_400, 0), long, &mut buffer), "1 hour 30 minutes");
    /// ```
    #[inline]
    #[must_use]
    pub const fn style(self, style: Style) -> Format
        ensures { result ≡ record self { style = style } }
    {
        Format { style, ..self }
    }

    #[inline]
    pub(crate) fn zero_unit(self) -> TimeUnit
        ensures { result ≡ zero_unit (units_within self) }
    {
        let mut smallest = TimeUnit::Second;
        for unit in &UNITS {
            if self.units.contains(*unit) {
                smallest = *unit;
            }
        }
        if smallest.nanos() < TimeUnit::Second.nanos() {
            TimeUnit::Second
        } else {
            smallest
        }
    }
}

#[inline(always)]
pub(crate) fn longest(bits: u32) -> Option<(&'static Printed, u32)>
    ensures right { IfSome result (λ first. first.0.now ≡ printed_row first.0.now.unit) }
    ensures first { IfSome result (λ first.
        units_of bits ≡ first.0.now.unit ∷ units_of first.1) }
    ensures none { IfNone result (units_of bits ≡ []) }
{
    let rank = bits.trailing_zeros();
    if rank as usize >= PRINTED.len() {
        return None;
    }
    Some((&PRINTED[rank as usize], bits & !(1 << rank)))
}
