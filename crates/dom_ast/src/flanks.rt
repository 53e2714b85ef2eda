ghost use Rattle.std.specs.Prelude.{◌≡◌, ◌≤◌, [], length, map, true};
ghost use Rattle.dom_words.specs.State.{are_lengths, start_with_words, state_words};
ghost use Rattle.dom_ast.specs.Flanks.{are_flanked, flank_form, flanks_within};
ghost use Rattle.dom_ast.specs.Straight.{straight_ranges};

use crate::part::Place;
use crate::steps::Step;
use dom_words::{ArrayList, Names, Seq};

/// A step, or a flank: the one place where the word of an array is read, or the one where it is written.
#[derive(Debug, Drop)]
pub enum FlankItem {
    Read { array: u32, index: Place },
    Set(Step),
    Write { array: u32, index: Place },
}

/// Flanks and steps in order.
pub type FlankList = Seq<FlankItem>;

/// A list of steps between read and write flanks. Each array has one read flank at most, which stands before all mentions
/// of the array, and one write flank at most, which has the read flank's index and stands after it.
#[derive(Drop)]
pub struct Flanked {
    /// The packet's fields.
    pub fields: Names,
    /// The state.
    pub arrays: ArrayList,
    /// The number of fresh names. Each is 0 before a step gives it a word.
    pub fresh: u32,
    pub items: FlankList,
    ghost some_fields: { 1 ≤ length fields },
    ghost few_fields: { length fields ≤ 64 },
    ghost few_arrays: { length arrays ≤ 32 },
    ghost lengths: { are_lengths arrays ≡ true },
    ghost first_words: { start_with_words arrays ≡ true },
    ghost few_words: { state_words arrays ≤ 1048576 },
    ghost ranges: { flanks_within (straight_ranges (length fields) (length arrays) fresh) (map flank_form items) ≡ true },
    ghost flanks: { are_flanked [] [] (map flank_form items) ≡ true },
}
