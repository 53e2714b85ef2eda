ghost use Rattle.std.specs.Prelude.{◌≡◌, map, IfOk};
ghost use Rattle.dom_ast.specs.Resolved.{form};
ghost use Rattle.dom_ast.specs.inner.PartOps.{op_form};
ghost use Rattle.ssa_names.specs.Naming.{renamed as renamed_form};
ghost use Rattle.ssa_names.specs.inner.Tables.{current_of, op_renamed};

use crate::operand::{at, part as part_of};
use crate::tables::Tables;
use dom_ast::{Part, PartList, PartOps};
use dom_words::{BinOp, Memory, Seq};
use std::alloc::Global;

/// The expression with what stands for its names in their places.
#[cycle(renamed)]
#[tactic(auto, using(crate::proofs::Forms::form_chain))]
pub fn renamed(alloc: Global, tables: &Tables, part: Part) -> Result<Part, Memory>
    ensures { IfOk result (λ p. form p ≡ renamed_form (current_of tables.now) (form part)) }
{
    match part {
        Part::Number(word) => Ok(Part::Number(word)),
        Part::Field(k) => Ok(part_of(at(tables.fields.as_slice(), k))),
        Part::State { array, .. } => Ok(part_of(at(tables.arrays.as_slice(), array))),
        Part::Fresh(k) => Ok(part_of(at(tables.fresh.as_slice(), k))),
        Part::Made(k) => Ok(Part::Made(k)),
        Part::Call { unit, args } => Ok(Part::Call {
            unit,
            args: renamed_all(alloc, tables, args)?,
        }),
        Part::Un { op, arg } => Ok(Part::Un {
            op,
            arg: boxed(alloc, renamed(alloc, tables, Box::into_inner(arg))?)?,
        }),
        Part::Chain { first, rest } => Ok(Part::Chain {
            first: boxed(alloc, renamed(alloc, tables, Box::into_inner(first))?)?,
            rest: renamed_ops(alloc, tables, rest)?,
        }),
        Part::Cond { test, yes, no } => Ok(Part::Cond {
            test: boxed(alloc, renamed(alloc, tables, Box::into_inner(test))?)?,
            yes: boxed(alloc, renamed(alloc, tables, Box::into_inner(yes))?)?,
            no: boxed(alloc, renamed(alloc, tables, Box::into_inner(no))?)?,
        }),
    }
}

#[cycle(renamed)]
fn renamed_all(alloc: Global, tables: &Tables, parts: PartList) -> Result<PartList, Memory>
    ensures { IfOk result (λ all. map form all ≡ map (renamed_form (current_of tables.now)) (map form parts)) }
{
    let mut all = Seq::new(alloc);
    for part in parts.into_vec() {
        all.push(renamed(alloc, tables, part)?)?;
    }
    Ok(all)
}

#[cycle(renamed)]
fn renamed_ops(alloc: Global, tables: &Tables, ops: PartOps) -> Result<PartOps, Memory>
    ensures { IfOk result (λ all. map op_form all ≡ map (op_renamed (current_of tables.now)) (map op_form ops)) }
{
    let mut all = Seq::new(alloc);
    for (op, part) in ops.into_vec() {
        all.push((op, renamed(alloc, tables, part)?))?;
    }
    Ok(all)
}

fn boxed(alloc: Global, part: Part) -> Result<Box<Part>, Memory>
    ensures { IfOk result (λ b. b.value ≡ part) }
{
    match Box::new(alloc, part) {
        Ok(b) => Ok(b),
        Err(_) => Err(Memory),
    }
}
