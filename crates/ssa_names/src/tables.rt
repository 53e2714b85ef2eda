ghost use Rattle.std.specs.Prelude.{◌≡◌, IfOk};
ghost use Rattle.dom_ast.specs.Resolved.{form};
ghost use Rattle.ssa_names.specs.Naming.{place_operand, plain};
ghost use Rattle.ssa_names.specs.inner.Tables.{current_of, first_fields, rows_assigned, rows_of, rows_read, starting_rows};

use crate::operand::{Operand, at, put};
use dom_ast::{Goal, Part, Place};
use dom_words::Memory;
use std::alloc::Global;

/// What stands for each name at a moment.
#[derive(Drop)]
pub struct Tables {
    /// For each field.
    pub fields: Vec<Operand>,
    /// For the word of each array.
    pub arrays: Vec<Operand>,
    /// For each fresh name.
    pub fresh: Vec<Operand>,
    /// For the index at which each array was read.
    pub indexes: Vec<Operand>,
}

impl Tables {
    /// The entered fields, and the number 0 for all else.
    pub fn new(alloc: Global, fields: u32, arrays: usize, fresh: u32) -> Result<Tables, Memory>
        ensures { IfOk result (λ now. rows_of now ≡ starting_rows fields arrays fresh) }
    {
        let zero = Operand::Number(0);
        Ok(Tables {
            fields: entered(alloc, fields)?,
            arrays: vec![in alloc; zero; arrays].map_err(|_| Memory)?,
            fresh: vec![in alloc; zero; fresh as usize].map_err(|_| Memory)?,
            indexes: vec![in alloc; zero; arrays].map_err(|_| Memory)?,
        })
    }

    /// The operand of an index.
    pub fn place(&self, index: Place) -> Operand
        ensures { result ≡ place_operand (current_of self.now) index }
    {
        match index {
            Place::Word(word) => Operand::Number(word),
            Place::Field(k) => at(self.fields.as_slice(), k),
        }
    }

    /// The operand of a literal or a name; `None` for every other expression.
    pub fn plain(&self, part: &Part) -> Option<Operand>
        ensures { result ≡ plain (current_of self.now) (form part.now) }
    {
        match part {
            Part::Number(word) => Some(Operand::Number(*word)),
            Part::Field(k) => Some(at(self.fields.as_slice(), *k)),
            Part::State { array, .. } => Some(at(self.arrays.as_slice(), *array)),
            Part::Fresh(k) => Some(at(self.fresh.as_slice(), *k)),
            Part::Made(k) => Some(Operand::Made(*k)),
            Part::Call { .. } | Part::Un { .. } | Part::Chain { .. } | Part::Cond { .. } => None,
        }
    }

    /// Lets the operand stand for a target.
    pub fn assign(&mut self, target: Goal, operand: Operand)
        ensures { rows_of self.new ≡ rows_assigned target operand (rows_of self.old) }
    {
        match target {
            Goal::Field(k) => put(self.fields.as_mut_slice(), k, operand),
            Goal::State { array, .. } => put(self.arrays.as_mut_slice(), array, operand),
            Goal::Fresh(k) => put(self.fresh.as_mut_slice(), k, operand),
        }
    }

    /// Lets the operand stand for the word of an array that is read at an index.
    pub fn read(&mut self, array: u32, index: Operand, word: Operand)
        ensures { rows_of self.new ≡ rows_read array index word (rows_of self.old) }
    {
        put(self.arrays.as_mut_slice(), array, word);
        put(self.indexes.as_mut_slice(), array, index);
    }
}

// The entered fields, each for itself.
#[tactic(auto, using(crate::proofs::Forms::first_more))]
fn entered(alloc: Global, fields: u32) -> Result<Vec<Operand>, Memory>
    ensures { IfOk result (λ all. all.items ≡ first_fields fields) }
{
    let mut all = Vec::new(alloc);
    for k in 0..fields {
        let Ok(()) = all.push(Operand::Field(k)) else {
            return Err(Memory);
        };
    }
    Ok(all)
}
