ghost use Rattle.std.specs.Prelude.{◌≡◌, ◌≤◌, [], length, map, true};
ghost use Rattle.dom_words.specs.State.{are_lengths, start_with_words, state_words};
ghost use Rattle.dom_ast.specs.Named.{are_in_order, are_named, are_outputs, makes_of, named_form};
ghost use Rattle.dom_ast.specs.Resolved.{form};

use crate::part::{Part, PartList};
use dom_words::{ArrayList, Names, Seq};

/// An item: the word of an array at an index, a value, or a word that is written to an array.
#[derive(Debug, Drop)]
pub enum NamedItem {
    Read {
        array: u32,
        index: Part,
    },
    Make(Part),
    Write {
        array: u32,
        index: Part,
        value: Part,
    },
}

/// Items in order.
pub type NamedList = Seq<NamedItem>;

/// A program with one name for each value. `Part::Field` is the entered field and `Part::Made(j)` the value of item `j`,
/// which stands earlier and is no `Write`. Indexes, written values and outputs are numbers, fields or made values. Each
/// array has one `Read` at most, and one `Write` at most, which stands after it and has its index.
#[derive(Drop)]
pub struct Named {
    /// The packet's fields.
    pub fields: Names,
    /// The state.
    pub arrays: ArrayList,
    pub items: NamedList,
    /// What each field is at the end.
    pub outputs: PartList,
    ghost some_fields: { 1 ≤ length fields },
    ghost few_fields: { length fields ≤ 64 },
    ghost few_arrays: { length arrays ≤ 32 },
    ghost lengths: { are_lengths arrays ≡ true },
    ghost first_words: { start_with_words arrays ≡ true },
    ghost few_words: { state_words arrays ≤ 1048576 },
    ghost ranges: { are_named (length fields) (length arrays) [] (map named_form items) ≡ true },
    ghost order: { are_in_order (map named_form items) ≡ true },
    ghost output_ranges: { are_outputs (length fields) (makes_of (map named_form items)) (map form outputs) ≡ true },
    ghost one_output_each: { length outputs ≡ length fields },
}
