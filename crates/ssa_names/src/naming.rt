ghost use Rattle.std.specs.Prelude.{◌≡◌, ◌+◌, ◌^◌, ◌<◌, ◌≤◌, length, map, IfOk, OnOk};
ghost use Rattle.dom_words.specs.State.{AgreeUnder};
ghost use Rattle.dom_ast.specs.Flanks.{flank_form, flanked_outcome, flanks_nodes};
ghost use Rattle.dom_ast.specs.Named.{named_form, named_nodes, named_outcome};
ghost use Rattle.dom_ast.specs.Resolved.{form};
ghost use Rattle.dom_ast.specs.Straight.{step_form};
ghost use Rattle.ssa_names.specs.Naming.{named, operand_form, outputs_of, plain};
ghost use Rattle.ssa_names.specs.inner.Tables.{current_of, tabled, tabled_item, tabled_of, tabled_read, tabled_set, tabled_write};

use crate::operand::{Operand, at, part};
use crate::renaming::renamed;
use crate::tables::Tables;
use dom_ast::{FlankItem, Flanked, Named, NamedItem, NamedList, PartList, Step};
use dom_words::{Memory, Seq};
use std::alloc::Global;

/// The list with one name for each value (`specs/Naming.antt`). A step whose value is a literal or a name makes no item:
/// what it gives to its target stands there from then on. Fields and arrays stay. The answer does what the list does
/// (`means`).
pub fn name(alloc: Global, steps: Flanked) -> Result<Named, Memory>
    requires { flanks_nodes (map flank_form steps.items) < 2 ^ 23 }
    ensures fields { IfOk result (λ r. r.fields ≡ steps.fields) }
    ensures arrays { IfOk result (λ r. r.arrays ≡ steps.arrays) }
    ensures items { IfOk result (λ r. map named_form r.items ≡ (named (map flank_form steps.items)).items) }
    ensures outputs { IfOk result (λ r. map form r.outputs ≡ outputs_of (length steps.fields) (named (map flank_form steps.items))) }
    ensures means { IfOk result (λ r. AgreeUnder (λ hash packet state. length packet ≡ length steps.fields) (λ hash. named_outcome hash (map named_form r.items) (map form r.outputs)) (λ hash. flanked_outcome hash (map flank_form steps.items))) }
    ensures few { IfOk result (λ r. named_nodes (map named_form r.items) (map form r.outputs) < 2 ^ 25) }
{
    let Flanked {
        fields,
        arrays,
        fresh,
        items,
    } = steps;
    let count = fields.len() as u32;
    let Walk { tables, items } = walked(alloc, count, arrays.len(), fresh, items.into_vec())?;
    let outputs = parts(alloc, tables.fields.as_slice())?;
    Ok(Named {
        fields,
        arrays,
        items,
        outputs,
    })
}

// All flanks and steps, one after another.
fn walked(
    alloc: Global,
    fields: u32,
    arrays: usize,
    fresh: u32,
    items: Vec<FlankItem>,
) -> Result<Walk, Memory>
    requires { length items.items < 2 ^ 32 }
    ensures { IfOk result (λ w. tabled_of w ≡ tabled fields arrays fresh (map flank_form items.items)) }
{
    let tables = Tables::new(alloc, fields, arrays, fresh)?;
    let mut walk = Walk {
        tables,
        items: Seq::new(alloc),
    };
    for item in items {
        walk.take(alloc, item)?;
    }
    Ok(walk)
}

// The operands as expressions.
fn parts(alloc: Global, operands: &[Operand]) -> Result<PartList, Memory>
    ensures { IfOk result (λ all. map form all ≡ map operand_form operands.now) }
{
    let mut all = Seq::new(alloc);
    for operand in operands {
        all.push(part(*operand))?;
    }
    Ok(all)
}

/// The items so far, and what stands for each name then.
#[derive(Drop)]
pub struct Walk {
    pub tables: Tables,
    pub items: NamedList,
}

impl Walk {
    // One flank or step more.
    fn take(&mut self, alloc: Global, item: FlankItem) -> Result<(), Memory>
        requires { length self.old.items < 2 ^ 32 }
        ensures list { OnOk result (tabled_of self.new ≡ tabled_item (tabled_of self.old) (flank_form item)) }
        ensures few { OnOk result (length self.new.items ≤ length self.old.items + 1) }
    {
        match item {
            FlankItem::Read { array, index } => {
                let index = self.tables.place(index);
                self.read(array, index)
            }
            FlankItem::Set(step) => self.set(alloc, step),
            FlankItem::Write { array, .. } => self.write(array),
        }
    }

    // The value that the next item makes.
    fn next(&self) -> Operand
        requires { length self.now.items < 2 ^ 32 }
        ensures { result ≡ Operand.Made (length self.now.items) }
    {
        Operand::Made(self.items.len() as u32)
    }

    // A read flank.
    fn read(&mut self, array: u32, index: Operand) -> Result<(), Memory>
        requires { length self.old.items < 2 ^ 32 }
        ensures list { OnOk result (tabled_of self.new ≡ tabled_read (tabled_of self.old) array index) }
        ensures few { OnOk result (length self.new.items ≤ length self.old.items + 1) }
    {
        let value = self.next();
        self.items.push(NamedItem::Read {
            array,
            index: part(index),
        })?;
        self.tables.read(array, index, value);
        Ok(())
    }

    // A step: no item where it is a copy, else one that makes its value.
    fn set(&mut self, alloc: Global, step: Step) -> Result<(), Memory>
        requires { length self.old.items < 2 ^ 32 }
        ensures list { OnOk result (tabled_of self.new ≡ tabled_set (tabled_of self.old) (step_form step) (plain (current_of self.old.tables) (form step.value))) }
        ensures few { OnOk result (length self.new.items ≤ length self.old.items + 1) }
    {
        let Step { target, value } = step;
        let operand = match self.tables.plain(&value) {
            Some(operand) => operand,
            None => {
                let made = self.next();
                let part = renamed(alloc, &self.tables, value)?;
                self.items.push(NamedItem::Make(part))?;
                made
            }
        };
        self.tables.assign(target, operand);
        Ok(())
    }

    // A write flank.
    fn write(&mut self, array: u32) -> Result<(), Memory>
        ensures list { OnOk result (tabled_of self.new ≡ tabled_write (tabled_of self.old) array) }
        ensures few { OnOk result (length self.new.items ≤ length self.old.items + 1) }
    {
        self.items.push(NamedItem::Write {
            array,
            index: part(at(self.tables.indexes.as_slice(), array)),
            value: part(at(self.tables.arrays.as_slice(), array)),
        })
    }
}
