ghost use Rattle.std.specs.Prelude.{◌≡◌, ℕ, ◌<◌, List, ◌++◌, [], ◌∷◌, not, OnOk, OnErr, IfErr};
ghost use Rattle.dom_ast.specs.Kept.{Mention as MentionForm, is_no_index, mention};
ghost use Rattle.dom_checks.specs.inner.Noted.{AreFirsts, AreIndexes, IsPlaceBelow, named};
ghost use Rattle.dom_checks.specs.Walk.{first_index};

use crate::faults::CheckFault;
use dom_ast::Place;
use dom_words::Seq;
use std::alloc::Global;
use std::marker::Model;

/// A mention of an array at an index.
#[derive(Clone, Copy, Debug, PartialEq, Eq)]
pub(crate) struct Mention {
    pub(crate) array: u32,
    pub(crate) index: Place,
}

/// The mentions of arrays so far in a walk, seen as the list of them.
#[derive(Drop)]
pub(crate) struct Seen {
    mentions: Seq<Mention>,
    /// The first index of each array.
    firsts: [Option<Place>; 32],
    /// Whether each field is an index.
    indexes: [bool; 64],
}

impl Model for Seen {
    ghost use Rattle.std.specs.Prelude.{List, map};
    ghost use Rattle.dom_ast.specs.Kept.{Mention as MentionForm};
    ghost use Rattle.dom_checks.specs.inner.Noted.{AreTables, named};

    ghost Value = { List MentionForm };

    ghost view = { λ s. map named s.mentions };

    ghost invariant = { λ s. AreTables (map named s.mentions) s.firsts s.indexes };
}

impl Seen {
    /// No mentions. Takes no memory.
    pub(crate) fn new(alloc: Global) -> Seen
        ensures { result ≡ [] }
    {
        Seen {
            mentions: Seq::new(alloc),
            firsts: [None; 32],
            indexes: [false; 64],
        }
    }

    /// The index of the array's first mention.
    pub(crate) fn first(&self, array: u32) -> Option<Place>
        requires { array < 32 }
        ensures { result ≡ first_index self.now array }
    {
        self.firsts[array as usize]
    }

    /// Whether a field is an index.
    pub(crate) fn is_index(&self, field: u32) -> bool
        requires { field < 64 }
        ensures { result ≡ not (is_no_index self.now field) }
    {
        self.indexes[field as usize]
    }

    /// Puts a mention at the end; want of memory changes nothing.
    pub(crate) fn add(&mut self, mention: Mention) -> Result<(), CheckFault>
        requires array { mention.array < 32 }
        requires field { IsPlaceBelow 64 mention.index }
        ensures ok { OnOk result (self.new ≡ self.old ++ named mention ∷ []) }
        ensures err { IfErr result (λ f. f ≡ CheckFault.Memory) }
        ensures same { OnErr result (self.new ≡ self.old) }
    {
        match self.mentions.push(mention) {
            Ok(()) => {
                note_first(&mut self.firsts, mention);
                note_index(&mut self.indexes, mention);
                Ok(())
            }
            Err(_) => Err(CheckFault::Memory),
        }
    }
}

fn note_first(firsts: &mut [Option<Place>; 32], mention: Mention)
    requires { mention.array < 32 }
    ensures { (ms : List MentionForm) → AreFirsts ms firsts.old → AreFirsts (ms ++ named mention ∷ []) firsts.new }
{
    let array = mention.array as usize;
    match firsts[array] {
        Some(_) => {}
        None => firsts[array] = Some(mention.index),
    }
}

fn note_index(indexes: &mut [bool; 64], mention: Mention)
    requires { IsPlaceBelow 64 mention.index }
    ensures { (ms : List MentionForm) → AreIndexes ms indexes.old → AreIndexes (ms ++ named mention ∷ []) indexes.new }
{
    match mention.index {
        Place::Field(field) => indexes[field as usize] = true,
        Place::Word(_) => {}
    }
}
