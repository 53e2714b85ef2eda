ghost use Rattle.std.specs.Prelude.{◌≡◌, ◌≤◌, [], length, true};
ghost use Rattle.dom_flat.specs.Kept.{are_after, are_flanked, are_known, entered, have_small_moduli, have_words, lines_have_words, lines_within, values_of};
ghost use Rattle.dom_words.specs.State.{are_lengths, start_with_words, state_words};

use crate::line::{LineList, Operands};
use dom_words::{ArrayList, Names};

/// A program as a list of statements. With F fields, the values 0 to F-1 are the entered
/// fields, and statement j makes value F + j. A statement uses fields and values of statements before it; a `Store` makes
/// no value. Each array has one `Fetch` at most, and one `Store` at most, which stands after it and has its index. A
/// modulus is at most 2147483647, and constants and what arrays start with are words of 32 bits.
#[derive(Drop)]
pub struct Flat {
    /// The packet's fields.
    pub fields: Names,
    /// The state.
    pub arrays: ArrayList,
    pub lines: LineList,
    /// What each field is at the end.
    pub outputs: Operands,
    ghost some_fields: { 1 ≤ length fields },
    ghost few_fields: { length fields ≤ 64 },
    ghost few_arrays: { length arrays ≤ 32 },
    ghost lengths: { are_lengths arrays ≡ true },
    ghost first_words: { start_with_words arrays ≡ true },
    ghost few_words: { state_words arrays ≤ 1048576 },
    ghost few_lines: { length lines ≤ 512 },
    ghost ranges: { lines_within (length arrays) lines ≡ true },
    ghost small_moduli: { have_small_moduli lines ≡ true },
    ghost constants: { lines_have_words lines ≡ true },
    ghost output_constants: { have_words outputs ≡ true },
    ghost order: { are_after (entered (length fields)) lines ≡ true },
    ghost flanks: { are_flanked [] [] lines ≡ true },
    ghost known_outputs: { are_known (values_of (length fields) lines) outputs ≡ true },
    ghost one_output_each: { length outputs ≡ length fields },
}
