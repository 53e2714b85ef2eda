//! The statements of expressions.

ghost use Rattle.std.specs.Prelude.{◌≡◌, ◌+◌, ◌*◌, ◌<◌, ◌≤◌, ◌^◌, ◌++◌, [], ◌∷◌, IfOk, OnOk, drop, length, slice_index_or};
ghost use Rattle.dom_ast.specs.PartSize.{ops_nodes, part_nodes, parts_nodes};
ghost use Rattle.dom_ast.specs.Resolved.{form, forms};
ghost use Rattle.dom_ast.specs.inner.PartOps.{op_forms};
ghost use Rattle.three_address.specs.Flattening.{all_flattened, as_is, as_modulus, first_modulus as modulus_of_first, flattened, folded};
ghost use Rattle.three_address.specs.inner.Taking.{taken_by};

use dom_ast::Part;
use dom_flat::{Line, LineList, Operand, Operands};
use dom_words::{BinOp, Memory, Seq};
use std::alloc::Global;

/// Puts a statement at the end and answers its value.
pub(crate) fn put(fields: u32, line: Line, lines: &mut LineList) -> Result<Operand, Memory>
    requires { fields + length lines.old < 2 ^ 32 }
    ensures lines { OnOk result (lines.new ≡ lines.old ++ line ∷ []) }
    ensures operand { IfOk result (λ o. o ≡ Operand.Value (fields + length lines.old)) }
    ensures few { OnOk result (length lines.new ≡ length lines.old + 1) }
{
    let value = Operand::Value(fields + lines.len() as u32);
    lines.push(line)?;
    Ok(value)
}

/// Puts the statements of an expression at the end and answers its operand. `values` has the operands of the items' values;
/// a call takes the modulus, and 0 is none.
#[cycle(flatten)]
#[tactic(auto, using(crate::proofs::Chains::form_chain, crate::proofs::Chains::chain_taken, crate::proofs::Chains::ops_left))]
pub(crate) fn put_part(
    alloc: Global,
    part: &Part,
    modulus: u32,
    fields: u32,
    values: &[Operand],
    lines: &mut LineList,
) -> Result<Operand, Memory>
    requires { fields + length lines.old + 2 * part_nodes (form part.now) < 2 ^ 32 }
    ensures lines { OnOk result (lines.new ≡ (flattened fields values.now lines.old modulus (form part.now)).lines) }
    ensures operand { IfOk result (λ o. o ≡ (flattened fields values.now lines.old modulus (form part.now)).operand) }
    ensures few { OnOk result (length lines.new < length lines.old + 2 * part_nodes (form part.now)) }
{
    match part {
        Part::Number(word) => Ok(Operand::Const(*word)),
        Part::Field(field) => Ok(Operand::Value(*field)),
        Part::State { .. } | Part::Fresh(_) => Ok(Operand::Const(0)),
        Part::Made(item) => Ok(value_of(values, *item)),
        Part::Call { unit, args } => {
            let args = put_parts(alloc, args.as_slice(), fields, values, lines)?;
            let hash = Line::Hash {
                unit: *unit,
                modulus,
                args,
            };
            let value = put(fields, hash, lines)?;
            Ok(value)
        }
        Part::Un { op, arg } => {
            let a = put_part(alloc, arg, 0, fields, values, lines)?;
            let value = put(fields, Line::Un { op: *op, a }, lines)?;
            Ok(value)
        }
        Part::Chain { first, rest } => {
            let modulus = first_modulus(first, rest.as_slice());
            let a = put_part(alloc, first, modulus, fields, values, lines)?;
            let from = ops_taken(modulus);
            let value = put_ops(alloc, a, rest.as_slice(), from, fields, values, lines)?;
            Ok(value)
        }
        Part::Cond { test, yes, no } => {
            let c = put_part(alloc, test, 0, fields, values, lines)?;
            let a = put_part(alloc, yes, 0, fields, values, lines)?;
            let b = put_part(alloc, no, 0, fields, values, lines)?;
            let value = put(fields, Line::Cond { c, a, b }, lines)?;
            Ok(value)
        }
    }
}

/// Puts the statements of expressions at the end, one after another, and answers their operands.
#[cycle(flatten)]
pub(crate) fn put_parts(
    alloc: Global,
    parts: &[Part],
    fields: u32,
    values: &[Operand],
    lines: &mut LineList,
) -> Result<Operands, Memory>
    requires { fields + length lines.old + 2 * parts_nodes (forms parts.now) < 2 ^ 32 }
    ensures lines { OnOk result (lines.new ≡ (all_flattened fields values.now lines.old (forms parts.now)).lines) }
    ensures operands { IfOk result (λ os. os ≡ (all_flattened fields values.now lines.old (forms parts.now)).operands) }
    ensures few { OnOk result (length lines.new ≤ length lines.old + 2 * parts_nodes (forms parts.now)) }
{
    let mut operands = Seq::new(alloc);
    for part in parts {
        operands.push(put_part(alloc, part, 0, fields, values, lines)?)?;
    }
    Ok(operands)
}

/// Puts the statements of operators at the end, after the operand `first`, for the operators from number `from` on.
#[cycle(flatten)]
fn put_ops(
    alloc: Global,
    first: Operand,
    ops: &[(BinOp, Part)],
    from: usize,
    fields: u32,
    values: &[Operand],
    lines: &mut LineList,
) -> Result<Operand, Memory>
    requires { fields + length lines.old + 2 * ops_nodes (op_forms (drop from ops.now)) < 2 ^ 32 }
    ensures lines { OnOk result (lines.new ≡ (folded fields values.now (as_is lines.old first) (op_forms (drop from ops.now))).lines) }
    ensures operand { IfOk result (λ o. o ≡ (folded fields values.now (as_is lines.old first) (op_forms (drop from ops.now))).operand) }
    ensures few { OnOk result (length lines.new ≤ length lines.old + 2 * ops_nodes (op_forms (drop from ops.now))) }
{
    let mut a = first;
    for k in from..ops.len() {
        let (op, part) = op_at(ops, k);
        let b = put_part(alloc, part, 0, fields, values, lines)?;
        a = put(fields, Line::Bin { op: *op, a, b }, lines)?;
    }
    Ok(a)
}

// Operator `k` with the operand after it.
fn op_at(ops: &[(BinOp, Part)], k: usize) -> &(BinOp, Part)
    requires { k < length ops.now }
    ensures same { result.now ≡ slice_index_or ops.now k result.now }
    ensures nodes { ops_nodes (op_forms (drop k ops.now)) ≡ part_nodes (form result.now.1) + ops_nodes (op_forms (drop (k + 1) ops.now)) }
{
    &ops[k]
}

// How many operators a hash with the modulus takes.
fn ops_taken(modulus: u32) -> usize
    ensures { result ≡ taken_by modulus }
{
    if modulus == 0 { 0 } else { 1 }
}

// The operand of an item's value.
fn value_of(values: &[Operand], item: u32) -> Operand
    ensures { result ≡ slice_index_or values.now item (Operand.Const 0) }
{
    match values.get(item as usize) {
        Some(value) => *value,
        None => Operand::Const(0),
    }
}

// The modulus that a chain's first operand takes with it; 0 is none.
fn first_modulus(first: &Part, ops: &[(BinOp, Part)]) -> u32
    ensures { result ≡ modulus_of_first (form first.now) (op_forms ops.now) }
{
    match (first, ops) {
        (Part::Call { .. }, [(BinOp::Rem, Part::Number(modulus)), ..]) if *modulus <= 0x7fff_ffff =>
            *modulus,
        _ => 0,
    }
}
