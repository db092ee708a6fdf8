//! The rules by which a text is read.

ghost use Rattle.std.specs.Prelude.{◌≡◌};

use crate::options::Options;
use crate::table::UnitTable;
use crate::unit::TimeUnit;

/// The rules by which a text is read: the names and the lengths of the units, the default unit and
/// the options. [`Rules::of`] returns those of `parse_with`. Each other call changes one rule.
///
/// ```text
/// const RULES: Rules = Rules::of(Options::off()).more_names().default_unit(None);
///
/// parse_by("5 mins", RULES) // Ok(Duration::from_secs(300))
/// parse_by("5", RULES).unwrap_err().cause().place() // Some(1)
/// ```
#[derive(Clone, Copy, Debug, PartialEq, Eq)]
pub struct Rules {
    table: UnitTable,
    /// The unit of a number without one, or `None` if each number needs its unit.
    pub default_unit: Option<TimeUnit>,
    /// The options.
    pub options: Options,
}

impl Rules {
    ghost use Rattle.duration_str_base.specs.Humantime.{humantime_rules};
    ghost use Rattle.duration_str_base.specs.Meaning.{meaning_of};
    ghost use Rattle.duration_str_base.specs.MoreNames.{more_row_of};
    ghost use Rattle.duration_str_base.specs.Rules.{rules_of};

    /// Returns the rules of `parse_with` under these options: the library's own table of units, and
    /// the second as the default unit.
    #[inline(always)]
    #[must_use]
    pub const fn of(o: Options) -> Rules
        ensures { meaning_of result ≡ rules_of o }
    {
        Rules {
            table: UnitTable::Own,
            default_unit: Some(TimeUnit::Second),
            options: o,
        }
    }

    /// Returns the rules for texts of the crate humantime, with these options. A month has 30.44
    /// days and a year 365.25 days. Each number needs a unit. The names of `more_names` are read.
    /// So are `+` and `*`, unless `no_calc` is on. For humantime's texts turn on `lowercase`, so
    /// that `1M` is a month and `1m` a minute.
    #[inline(always)]
    #[must_use]
    pub const fn humantime(o: Options) -> Rules
        ensures { meaning_of result ≡ humantime_rules o }
    {
        Rules {
            table: UnitTable::Humantime,
            default_unit: None,
            options: o,
        }
    }

    /// Returns these rules with another default unit, which a number without a unit has. With
    /// `None` each number needs its unit, so only a unit can follow a number.
    ///
    /// A product multiplies its terms in seconds, and a factor without a unit counts the default
    /// unit too: with milliseconds, `90s*2` is 180 ms. If the numbers in your texts are
    /// milliseconds, turn on `no_calc`, so that operators are refused.
    #[inline(always)]
    #[must_use]
    pub const fn default_unit(self, unit: Option<TimeUnit>) -> Rules
        ensures { meaning_of result ≡ record (meaning_of self) { default_unit = unit } }
    {
        Rules {
            table: self.table,
            default_unit: unit,
            options: self.options,
        }
    }

    /// Returns these rules with more names of the units, such as `mins`, `hrs` and `yr`. The units
    /// have the library's own lengths: a month has 30 days and a year 365. (The rules of
    /// [`Rules::humantime`] read these names anyway, and would lose humantime's lengths.)
    #[inline(always)]
    #[must_use]
    pub const fn more_names(self) -> Rules
        ensures { meaning_of result ≡ record (meaning_of self) { table = more_row_of } }
    {
        Rules {
            table: UnitTable::More,
            default_unit: self.default_unit,
            options: self.options,
        }
    }
}

/// Returns the table of units. The field is private, so programs can't write out all fields, and a
/// rule can be added without breaking them.
#[inline(always)]
pub const fn unit_table(rules: Rules) -> UnitTable
    ensures { result ≡ rules.table }
{
    rules.table
}
