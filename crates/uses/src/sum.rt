//! Sums of durations: their value without writing them, and their terms in another order.
ghost use Rattle.std.specs.Prelude.{◌≡◌, ◌↔◌, ℕ, false, ◌==◌, ◌++◌, None, List, Option, not, codes, reverse, IfSome, IfNone, chars};
ghost use Rattle.uses.specs.Common.{as_nanos, list_all, Options as Choice, TimeUnit as Unit, HasNoStar, IsRead, IsRefused, Overflow, rules_with};
ghost use Rattle.std.specs.List.Sorted.{IsPermutation, IsNonDecreasingBy};
ghost use Rattle.uses.specs.Product.{nanos_in};
ghost use Rattle.uses.specs.Sum.{Adds};

use crate::product::Part;
use duration_str::laws::{one_sentence, reorder, sum_of_texts};
use duration_str::{Options, Rules, TimeUnit, parse_by};
use std::time::Duration;

/// Sorts the terms of a sum in place, the longest first. By the library's own units, and with any
/// default unit, the sorted sum is accepted exactly if the old one is, and has the same value.
///
/// ```text
/// // 29ms + 3min + 13s is written as 3min + 13s + 29ms
/// ```
pub fn longest_first(parts: &mut [Part])
    ensures permuted { IsPermutation parts.old parts.new }
    ensures order { IsNonDecreasingBy nanos_in (reverse parts.new) }
    ensures same { (default_unit : Option Unit) (o : Choice) (a b : List ℕ) (nanos : ℕ)
        → let r = rules_with o default_unit in Adds r parts.old a → Adds r parts.new b
        → (IsRead r a nanos ↔ IsRead r b nanos) }
{
    reorder();
    parts.sort_unstable_by_key(|part| part.wide_nanos());
    parts.reverse();
}

/// Returns the duration that two texts, joined by a plus, are read as under these options and with
/// this default unit. It is `None` if one of them is refused or has a `*`, if operators are not
/// read, or if the joined text is refused because the sum is 2^64 nanoseconds or more.
///
/// ```text
/// total_of("1m 2s", "3", Options::off(), Some(TimeUnit::Second)) // Some(Duration::from_secs(65))
/// ```
pub fn total_of(
    text: &str,
    other: &str,
    o: Options,
    default_unit: Option<TimeUnit>,
) -> Option<Duration>
    ensures read { IfSome result (λ d. IsRead (rules_with o default_unit)
        (chars text.now ++ codes "+" ++ chars other.now) (as_nanos d)) }
    ensures refused { IfNone result ((m n : ℕ) → o.no_calc ≡ false
        → HasNoStar (chars text.now) → HasNoStar (chars other.now)
        → IsRead (rules_with o default_unit) (chars text.now) m
        → IsRead (rules_with o default_unit) (chars other.now) n
        → IsRefused (rules_with o default_unit)
        (chars text.now ++ codes "+" ++ chars other.now) (Overflow None)) }
{
    sum_of_texts();
    one_sentence();
    if o.no_calc || !has_no_star(text) || !has_no_star(other) {
        return None;
    }
    let Ok(length) = parse_by(text, Rules::of(o).default_unit(default_unit)) else {
        return None;
    };
    let Ok(other_length) = parse_by(other, Rules::of(o).default_unit(default_unit)) else {
        return None;
    };
    match u64::try_from(length.as_nanos() + other_length.as_nanos()) {
        Ok(nanos) => Some(Duration::from_nanos(nanos)),
        Err(_) => None,
    }
}

fn has_no_star(text: &str) -> bool
    ensures { result ≡ list_all (λ c. not (c == 42)) (chars text.now) }
{
    text.chars().all(|c| c != '*')
}
