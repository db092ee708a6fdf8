//! Laws about the definitions. Each function does nothing, and its contract states a law, which is
//! proved. In the comments, texts are read by the library's own table of units.
ghost use Rattle.duration_str_reading.specs.ReadingLaws.{OneSentence, OneCut, OneReading, AnswerIsReading, PlaceAndKinds, NoCalcAgrees, OptionsIdle, BlanksFree, SumOfTexts, Reorder, TwoFactors};
ghost use Rattle.duration_str_printing.specs.PrintingLaws.{GreatestBreakdown, AllParts, OneRounding, PartsAndRest};
ghost use Rattle.duration_str_laws.specs.Laws.{EqualTexts, ReadsBack, OlderTexts, NeverMore, NearWords, MoreNames};
ghost use Rattle.duration_str_laws.specs.Mended.{FractionsAreMended, MendedFractions, MendedTexts, MendedTokens, MendedValues, RefusedTokens, WrittenIsSaid};

/// At most one sentence spells a text, and the lexemes of that sentence are those of the text's
/// tokens. Each text is either read as one value or refused for one cause, and the computed answer
/// says which. So the only sentence that spells `3m31s` has the lexemes `3`, `m`, `31` and `s`, and
/// the text is read as 211 seconds.
#[tactic(auto, using(crate::proofs::OneSentence::each_holds))]
pub fn one_sentence()
    ensures sentence { OneSentence }
    ensures tokens { OneCut }
    ensures reading { OneReading }
    ensures computed { AnswerIsReading }
{}

/// Three things decide what can follow the beginning of a sentence: its last terminal, `no_calc`,
/// and whether there is a default unit. Nothing else does. The longest prefix of a text's terminals
/// that begins a sentence ends before the first terminal, if any, that can't follow those before
/// it. So `1m` can be followed by a number, an operator (not under `no_calc`) or the end, and the
/// longest such prefix of `1m 3-5` is `1m 3`.
#[tactic(auto, using(crate::proofs::PlaceAndKinds::place_and_kinds_hold))]
pub fn place_and_kinds()
    ensures { PlaceAndKinds }
{}

/// For texts without operators, `no_calc` changes neither which are accepted nor their values. So
/// `2h 37m` is 9,420 seconds with and without `no_calc`. If a text is refused both with and without
/// `no_calc`, the causes may differ.
#[tactic(auto, using(crate::proofs::NoCalcAgrees::no_calc_agrees_holds))]
pub fn no_calc_agrees()
    ensures { NoCalcAgrees }
{}

/// `lowercase` changes neither the value nor the cause of a text without ASCII capitals, and
/// `cn_unit` changes neither for a text without the Chinese characters of the units. So `1m` is 60
/// seconds with and without them, and `0mxyz` is a syntax fault at byte 1.
#[tactic(auto, using(crate::proofs::OptionsIdle::options_idle_holds))]
pub fn options_idle()
    ensures { OptionsIdle }
{}

/// If one sentence spells two texts, they differ only in blanks, and they have the same value or
/// are refused for the same cause. So `3 m31 s0 ns` and `3m31s0ns` are both 211 seconds.
#[tactic(auto, using(crate::proofs::BlanksFree::blanks_free_holds))]
pub fn blanks_free()
    ensures { BlanksFree }
{}

/// If `no_calc` is off, two accepted texts without `*`, joined by a plus, have the sum of their
/// values. But if that sum is 2^64 nanoseconds or more, the joined text is refused as an overflow
/// without a place. So `1m 2s` and `3` are joined to `1m 2s+3`, which is 65 seconds, and
/// `580y+580y` overflows.
#[tactic(auto, using(crate::proofs::SumOfTexts::sum_of_texts_holds))]
pub fn sum_of_texts()
    ensures { SumOfTexts }
{}

/// If the terms of two sums have the same values, maybe in another order, either both sums are
/// accepted and have the same value, or neither is accepted. So `1ns+30s` and `30s+1ns` are both
/// 30,000,000,001 nanoseconds.
#[tactic(auto, using(crate::proofs::Reorder::reorder_holds))]
pub fn reorder()
    ensures { Reorder }
{}

/// Unless `no_calc` is on, a product of two terms is accepted exactly if both numbers, both terms
/// and the product, rounded down to nanoseconds, are below 2^64. If the terms of an accepted
/// product are exchanged, it has the same value. So `1m*10ms` and `10ms*1m` are both 600
/// milliseconds.
#[tactic(auto, using(crate::proofs::TwoFactors::two_factors_hold))]
pub fn two_factors()
    ensures { TwoFactors }
{}

/// Dividing by each unit in turn, and going on with the remainder, gives the greatest breakdown. So
/// 364 days are 4 quarters, not 52 weeks.
#[tactic(auto, using(duration_str_printing::proofs::GreatestBreakdown::greatest_breakdown_holds))]
pub fn greatest_breakdown()
    ensures { GreatestBreakdown }
{}

/// Printed in full and in one style, two durations have the same text exactly if they are equal. So
/// only 211 seconds print in full as `3min 31s`.
pub fn equal_texts()
    ensures { EqualTexts }
{}

/// A duration that is printed in full, in any style, is read back as itself if it is below 2^64
/// nanoseconds. Otherwise its text is refused as an overflow: without a place below 585 years, and
/// with place 0 from there on. So `584y 3q 2mon 1w 3d 23h 34min 33s 709ms 551µs 615ns` is read as
/// 2^64 - 1 nanoseconds, and with `616ns` it overflows.
#[tactic(auto, using(crate::proofs::ReadsBack::reads_back_holds))]
pub fn reads_back()
    ensures { ReadsBack }
{}

/// Each name that was there before the quarter was added still names its unit, and that unit has
/// the same length and the same printed names. A text that was read then is read as the same value,
/// under all options. A text that a sentence spelled, but whose evaluation was refused then, is
/// refused for the same cause. So a stored `1y 2mon` keeps its 425 days. The law says nothing about
/// other texts, such as `1q`, which was a syntax fault and is read now. Nor does it say that a
/// duration prints as it did then: 91 days were printed as `3mon 1d`.
#[tactic(auto, using(crate::proofs::OlderTexts::older_texts_hold))]
pub fn older_texts()
    ensures { OlderTexts }
{}

/// With all units and at least as many parts as there are units, `write_format` prints the whole
/// duration in the format's style. In the short style it prints what `write_human` prints. So in up
/// to eleven parts, 193,029 milliseconds are `3min 13s 29ms`.
pub fn all_parts()
    ensures { AllParts }
{}

/// A printed text is that of the greatest duration that prints whole in the format, and is not
/// above the given one. That duration prints as the same text, and the text is read as that
/// duration if the duration is below 2^64 nanoseconds. A duration prints whole in a format if its
/// greatest breakdown, into the format's units and the units shorter than all of them, has no more
/// parts than the format allows, and has parts only in the format's units. So a countdown never
/// shows more than is left, and 366 days in one part are `1y`.
#[tactic(auto, using(crate::proofs::NeverMore::never_more_holds))]
pub fn never_more()
    ensures { NeverMore }
{}

/// For each way of rounding, at most one duration up to `Duration::MAX` is what a duration is
/// rounded to, and one that prints whole is rounded to itself. No duration that prints whole is
/// between those that another one is rounded down and up to. A duration is printed as what it is
/// rounded down to. So 29 days in months and weeks are printed as `4w`, are rounded up to 1mon, and
/// no duration between those prints whole.
#[tactic(auto, using(duration_str_printing::proofs::RoundingLemmas::one_rounding_holds))]
pub fn one_rounding()
    ensures { OneRounding }
{}

/// The parts that `Breakdown` has returned so far, and the nanoseconds that they leave (`rest`),
/// are together the whole duration. So two parts of 193,029 milliseconds are 3 minutes and 13
/// seconds, and leave 29,000,000 nanoseconds.
#[tactic(auto, using(duration_str_printing::proofs::PartsAndRest::parts_and_rest_hold))]
pub fn parts_and_rest()
    ensures { PartsAndRest }
{}

/// Under all options, the name that a fault's line advises for a word names the unit that the word
/// is near, and the word itself names no unit. So if an error advises `min` for `mins`,
/// `parse_with` reads `mins` under no choice of options.
#[tactic(auto, using(crate::proofs::NearWords::near_words_hold))]
pub fn near_words()
    ensures { NearWords }
{}

/// With more names, each name of the library's own table still names its unit, whose length is the
/// same. A text that is read without them is read as the same value, under all options and with any
/// default unit. So `1h 30m` is 5,400 seconds with and without them. The law says nothing about
/// texts that are refused without them: `5 mins` is read with them.
#[tactic(auto, using(crate::proofs::OlderTexts::more_names_hold))]
pub fn more_names()
    ensures { MoreNames }
{}

/// If a text is refused and has a suggestion, the text with this suggestion has no syntax fault
/// before the end of the suggestion. So `1.5h 3 hrs` is refused at its second byte, and
/// `90min 3 hrs` at its ninth one. Both texts are read by the same rules, with any table of units.
#[tactic(auto, using(crate::proofs::Mended::mended_texts_hold))]
pub fn mended_texts()
    ensures { MendedTexts }
{}

/// If a text is only a number with a fraction and its unit, is refused, and has a suggestion, the
/// text with this suggestion is read by the same rules. Its value, times 10 for each digit after
/// the point, is the number without its point times the unit's length. So `1.5h` becomes `90min`,
/// and 10 times 90 minutes are 15 hours. Each such text that is refused for a syntax fault, and
/// whose value is a whole number of nanoseconds below 2^64, has a suggestion, which replaces the
/// whole text.
pub fn mended_fractions()
    ensures value { MendedFractions }
    ensures mended { FractionsAreMended }
{}

/// If a text is refused and has a mend, each token of the text is in the front, in the replaced
/// part, or in the rest. The text with the suggestion has the tokens of the front, of the
/// suggestion, and of the rest. There is one exception: if `_` or `'` is removed, the numbers
/// before and after it become one number, with the digits of both. A suggestion is written as its
/// count and a word that names its unit. If it has a count, the replaced part is a number with a
/// fraction, which is exactly as long as that count of that unit. If the text with the suggestion
/// is read, its value is that of the front's terms, the suggestion as one term, and the rest's
/// terms. So `2*1.5h` becomes `2*90min`, which is 3 hours, and `1_000s` becomes `1000s`.
pub fn mended_tokens()
    ensures refused { RefusedTokens }
    ensures tokens { MendedTokens }
    ensures written { WrittenIsSaid }
    ensures value { MendedValues }
{}
