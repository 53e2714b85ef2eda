ghost use Rattle.std.specs.Prelude.{◌≡◌, ◌≤◌, [], length, map, true};
ghost use Rattle.dom_ast.specs.Kept.{are_within, have_one_index, keep_indexes, mentions_in};
ghost use Rattle.dom_words.specs.State.{are_lengths, start_with_words, state_words};
ghost use Rattle.dom_ast.specs.Straight.{step_form, step_visit, straight_ranges};

use crate::part::{Goal, Part};
use dom_words::{ArrayList, Names, Seq};

/// A step: the target gets the value.
#[derive(Debug, Drop)]
pub struct Step {
    pub target: Goal,
    pub value: Part,
}

/// Steps in order.
pub type StepList = Seq<Step>;

/// A program as a list of steps without branches. All mentions of an array have one index, and no field that is an index
/// is assigned to once its array has been mentioned.
#[derive(Drop)]
pub struct Straight {
    /// The packet's fields.
    pub fields: Names,
    /// The state.
    pub arrays: ArrayList,
    /// The number of fresh names. Each is 0 before a step gives it a word.
    pub fresh: u32,
    pub steps: StepList,
    ghost some_fields: { 1 ≤ length fields },
    ghost few_fields: { length fields ≤ 64 },
    ghost few_arrays: { length arrays ≤ 32 },
    ghost lengths: { are_lengths arrays ≡ true },
    ghost first_words: { start_with_words arrays ≡ true },
    ghost few_words: { state_words arrays ≤ 1048576 },
    ghost ranges: { are_within (straight_ranges (length fields) (length arrays) fresh) (map step_visit (map step_form steps)) ≡ true },
    ghost one_index: { have_one_index (mentions_in (map step_visit (map step_form steps))) ≡ true },
    ghost kept_indexes: { keep_indexes [] (map step_visit (map step_form steps)) ≡ true },
}
