ghost use Rattle.std.specs.Prelude.{◌≡◌, ◌≤◌, [], length, true};
ghost use Rattle.dom_ast.specs.Resolved.{bodies_form};
ghost use Rattle.dom_ast.specs.Kept.{guards_mention_none, are_within, bodies_visits, have_one_index, keep_indexes, mentions_in, resolved_ranges};
ghost use Rattle.dom_words.specs.State.{are_lengths, state_words};

use crate::part::{Goal, Part};
use dom_words::{ArrayList, Names, Seq};

/// A statement whose names are numbers.
#[derive(Debug, Drop)]
pub enum Act {
    Assign {
        target: Goal,
        value: Part,
    },
    If {
        test: Part,
        yes: ActList,
        no: ActList,
    },
}

/// Statements in order.
pub type ActList = Seq<Act>;

/// For each transaction, in the order of the text, its guard and its body.
pub type BodyList = Seq<(Option<Part>, ActList)>;

/// A well-formed program whose names are numbers (docs/LANGUAGE.md, "Checks"). All mentions of an array have one index,
/// and no field that is an index is assigned to once its array has been mentioned.
#[derive(Drop)]
pub struct Checked {
    /// The packet's fields.
    pub fields: Names,
    /// The state.
    pub arrays: ArrayList,
    /// The transactions.
    pub bodies: BodyList,
    ghost some_fields: { 1 ≤ length fields },
    ghost few_fields: { length fields ≤ 64 },
    ghost few_arrays: { length arrays ≤ 32 },
    ghost lengths: { are_lengths arrays ≡ true },
    ghost few_words: { state_words arrays ≤ 1048576 },
    ghost ranges: { are_within (resolved_ranges (length fields) (length arrays)) (bodies_visits (bodies_form bodies)) ≡ true },
    ghost one_index: { have_one_index (mentions_in (bodies_visits (bodies_form bodies))) ≡ true },
    ghost kept_indexes: { keep_indexes [] (bodies_visits (bodies_form bodies)) ≡ true },
    ghost free_guards: { guards_mention_none (bodies_form bodies) ≡ true },
}

impl Checked {
    /// The packet's fields.
    pub fn fields(&self) -> &Names
        ensures { result.now ≡ self.now.fields }
    {
        &self.fields
    }

    /// The state.
    pub fn arrays(&self) -> &ArrayList
        ensures { result.now ≡ self.now.arrays }
    {
        &self.arrays
    }

    /// The guards and bodies of the transactions.
    pub fn bodies(&self) -> &BodyList
        ensures { result.now ≡ self.now.bodies }
    {
        &self.bodies
    }
}
