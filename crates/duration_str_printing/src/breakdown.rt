//! The breakdown of a duration into parts.
ghost use Rattle.std.specs.Prelude.{◌≡◌, ◌<◌, IfNone, IfSome, MatchOption, ◌+◌, ◌*◌};
ghost use Rattle.std.specs.Duration.{as_nanos};
ghost use Rattle.std.specs.Iterator.{YieldsFirstBy, item_count};
ghost use Rattle.duration_str_printing.specs.Breakdown.{AreParts, ArePartsRounded, YieldsPart, nanos_left, parts_left};
ghost use Rattle.duration_str_printing.specs.Rounding.{NoneShown};
ghost use Rattle.duration_str_base.specs.Units.{nanos_of};
ghost use Rattle.duration_str_base.specs.Internal.UnitTable.{printed_row};

use crate::format::{Format, Units, longest};
use crate::rounding::{Rounding, shown};
use duration_str_base::unit::{Printed, TimeUnit, UNITS};
use std::time::Duration;

/// The breakdown of a duration in a format: an iterator over its parts, which are units with their
/// counts, the longest unit first.
///
/// These are the parts that [`write_format`](crate::write_format) prints, without counts of 0. So a
/// duration of 0 has none. The format's style does not matter.
///
/// ```
/// use duration_str::{Breakdown, Format, TimeUnit};
/// use std::time::Duration;
///
/// let build = Duration::new(193, 29_000_000);
/// let mut parts = Breakdown::new(&build, Format::whole().parts(2));
/// assert_eq!(parts.next(), Some((TimeUnit::Minute, 3)));
/// assert_eq!(parts.next(), Some((TimeUnit::Second, 13)));
/// assert_eq!(parts.next(), None);
/// assert_eq!(parts.rest(), 29_000_000);
/// ```
#[derive(Clone, Debug, PartialEq, Eq, Hash)]
#[derive(Drop)]
pub struct Breakdown {
    /// The bits of the units that are left.
    bits: u32,
    /// How many parts there may still be.
    most: usize,
    rest: u128,
}

impl Breakdown {
    /// Returns the breakdown of a duration in this format.
    ///
    /// ```
    /// use duration_str::{Breakdown, Format, TimeUnit};
    /// use std::time::Duration;
    ///
    /// let days = Format::whole().only(&[TimeUnit::Day, TimeUnit::Hour]);
    /// let mut parts = Breakdown::new(&Duration::new(90_000, 0), days);
    /// assert!(parts.eq([(TimeUnit::Day, 1), (TimeUnit::Hour, 1)]));
    /// ```
    #[inline]
    #[must_use]
    pub fn new(d: &Duration, format: Format) -> Breakdown
        ensures parts { AreParts format (as_nanos d.now) (parts_left result) }
        ensures rest { nanos_left result ≡ as_nanos d.now }
    {
        Breakdown::of(d.as_nanos(), format.units, format.parts)
    }

    /// Rounds the duration to one that prints whole in this format, and returns the breakdown of
    /// that one, which has no rest. If `rounding` is `None`, the duration is not rounded, and its
    /// breakdown is that of [`Breakdown::new`].
    ///
    /// The result is `None` only for `Rounding::Up`, if no duration up to `Duration::MAX` prints
    /// whole and is not below the given one.
    ///
    /// ```
    /// use duration_str::{Breakdown, Format, Rounding, TimeUnit};
    /// use std::time::Duration;
    ///
    /// let length = Duration::new(7_199, 0); // 1h 59min 59s
    /// let one_part = Format::whole().parts(1);
    /// let mut parts = Breakdown::rounded(&length, one_part, Some(Rounding::Nearest)).unwrap();
    /// assert!(parts.by_ref().eq([(TimeUnit::Hour, 2)]));
    /// assert_eq!(parts.rest(), 0);
    /// ```
    #[inline]
    #[must_use]
    pub fn rounded(d: &Duration, format: Format, rounding: Option<Rounding>) -> Option<Breakdown>
        ensures some { IfSome result (λ parts. ArePartsRounded rounding format (as_nanos d.now)
            (nanos_left parts) (parts_left parts)) }
        ensures none { IfNone result (NoneShown rounding format (as_nanos d.now)) }
    {
        let shown = shown(*d, format, rounding)?;
        Some(Breakdown::new(&shown, format))
    }

    /// Returns the nanoseconds that the parts so far leave: the whole duration at first, and at the
    /// end what is in no part.
    ///
    /// ```
    /// use duration_str::{Breakdown, Format, TimeUnit};
    /// use std::time::Duration;
    ///
    /// let seconds = Format::whole().only(&[TimeUnit::Second]);
    /// let mut parts = Breakdown::new(&Duration::new(1, 500_000_000), seconds);
    /// assert_eq!(parts.next(), Some((TimeUnit::Second, 1)));
    /// assert_eq!(parts.rest(), 500_000_000);
    /// ```
    #[inline]
    #[must_use]
    pub fn rest(&self) -> u128
        ensures { result ≡ nanos_left self.now }
    {
        self.rest
    }

    #[inline(always)]
    pub(crate) fn of(nanos: u128, set: Units, most: usize) -> Breakdown
        ensures { result ≡ record { bits = set.bits; most = most; rest = nanos } }
    {
        Breakdown {
            bits: u32::from(set.bits()),
            most,
            rest: nanos,
        }
    }

    #[inline(always)]
    pub(crate) fn next_part(&mut self) -> Option<(&'static Printed, u128)>
        ensures first { YieldsFirstBy (λ part. (part.0.now.unit, part.1)) parts_left
            self.old result self.new }
        ensures rest { MatchOption result (nanos_left self.old ≡ nanos_left self.new)
            (λ part. nanos_left self.old
            ≡ part.1 * nanos_of part.0.now.unit + nanos_left self.new) }
        ensures less { IfSome result (λ part. nanos_left self.new < nanos_of part.0.now.unit) }
        ensures right { IfSome result (λ part. part.0.now ≡ printed_row part.0.now.unit) }
        ensures some { IfSome result (λ part. 0 < part.1) }
    {
        if self.most == 0 || self.rest == 0 {
            return None;
        }
        while let Some((row, others)) = longest(self.bits) {
            self.bits = others;
            if u128::from(row.nanos) <= self.rest {
                let (count, rest) = row.wide_division(self.rest);
                self.most -= 1;
                self.rest = rest;
                return Some((row, count));
            }
        }
        None
    }
}

impl Iterator for Breakdown {
    ghost use Rattle.duration_str_printing.specs.Breakdown.{YieldsPart, parts_left};

    type Item = (TimeUnit, u128);

    ghost next_gives = { YieldsPart };

    ghost remaining = { item_count parts_left };

    #[inline]
    fn next(&mut self) -> Option<(TimeUnit, u128)> {
        let (row, count) = self.next_part()?;
        Some((row.unit, count))
    }

    #[inline]
    fn size_hint(&self) -> (usize, Option<usize>) {
        (0, Some(self.most.min(UNITS.len())))
    }
}
