//! Laws about the definitions. Each function does nothing, and its contract states a law, which is
//! proved.
ghost use Rattle.duration_str_refusals.specs.Messages.{LastLine};

pub use duration_str_laws::laws::{
    all_parts, blanks_free, equal_texts, greatest_breakdown, mended_fractions, mended_texts,
    mended_tokens, more_names, near_words, never_more, no_calc_agrees, older_texts, one_rounding,
    one_sentence, options_idle, parts_and_rest, place_and_kinds, reads_back, reorder, sum_of_texts,
    two_factors,
};

/// Neither a cause's line nor a fault's message ends with a line feed. So `println!` ends either of
/// them with a single line feed.
#[tactic(auto, using(duration_str_refusals::proofs::MessageLemmas::last_line_holds))]
pub fn last_line()
    ensures { LastLine }
{}
