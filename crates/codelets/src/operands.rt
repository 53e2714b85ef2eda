ghost use Rattle.std.specs.Prelude.{◌≡◌, ◌+◌, ◌<◌, IfOk, length, map};
ghost use Rattle.dom_flat.specs.Lines.{with_operands};
ghost use Rattle.codelets.specs.Cut.{outer, seen_by};
ghost use Rattle.codelets.specs.ByRows.{cut_by, linked_by};
ghost use Rattle.codelets.specs.Linked.{twins_of};
ghost use Rattle.codelets.specs.ByRows.{seen_for};

use crate::groups::{are_together, is_in};
use dep_graph::Graph;
use dom_flat::{Flat, Line, Operand, Operands};
use dom_words::{Memory, Seq};
use std::alloc::Global;

// An operand as users outside its class have it.
fn outer_operand(flat: &Flat, graph: &Graph, twins: &[u32], operand: Operand) -> Operand
    requires { twins.now ≡ twins_of (linked_by flat.now graph.now) }
    ensures { result ≡ outer (cut_by flat.now graph.now) operand }
{
    match operand {
        Operand::Const(_) => operand,
        Operand::Value(value) => {
            let fields = flat.fields.len() as u32;
            if value < fields {
                operand
            } else if is_in(twins, value - fields) {
                Operand::Value(value + flat.lines.len() as u32)
            } else {
                operand
            }
        }
    }
}

// An operand as a statement has it.
fn inner_operand(flat: &Flat, graph: &Graph, twins: &[u32], user: u32, operand: Operand) -> Operand
    requires { twins.now ≡ twins_of (linked_by flat.now graph.now) }
    ensures { result ≡ seen_by (cut_by flat.now graph.now) user operand }
{
    match operand {
        Operand::Const(_) => operand,
        Operand::Value(value) => {
            let fields = flat.fields.len() as u32;
            if value < fields {
                operand
            } else if are_together(flat, graph, value - fields, user) {
                operand
            } else {
                outer_operand(flat, graph, twins, operand)
            }
        }
    }
}

/// An operand as a statement of a class has it, or as a user outside.
pub fn operand_for(
    flat: &Flat,
    graph: &Graph,
    twins: &[u32],
    user: Option<u32>,
    operand: Operand,
) -> Operand
    requires { twins.now ≡ twins_of (linked_by flat.now graph.now) }
    ensures { result ≡ seen_for (cut_by flat.now graph.now) user operand }
{
    match user {
        None => outer_operand(flat, graph, twins, operand),
        Some(number) => inner_operand(flat, graph, twins, number, operand),
    }
}

/// Operands as a statement of a class has them, or as a user outside.
pub fn operands_for(
    alloc: Global,
    flat: &Flat,
    graph: &Graph,
    twins: &[u32],
    user: Option<u32>,
    operands: &[Operand],
) -> Result<Operands, Memory>
    requires { twins.now ≡ twins_of (linked_by flat.now graph.now) }
    ensures { IfOk result (λ os. os ≡ map (seen_for (cut_by flat.now graph.now) user) operands.now) }
{
    let mut seen = Seq::new(alloc);
    for operand in operands {
        seen.push(operand_for(flat, graph, twins, user, *operand))?;
    }
    Ok(seen)
}

/// A statement as one of its class has it, or as a user outside.
pub fn line_for(
    alloc: Global,
    flat: &Flat,
    graph: &Graph,
    twins: &[u32],
    user: Option<u32>,
    line: &Line,
) -> Result<Line, Memory>
    requires { twins.now ≡ twins_of (linked_by flat.now graph.now) }
    ensures { IfOk result (λ l. l ≡ with_operands (seen_for (cut_by flat.now graph.now) user) line.now) }
{
    match line {
        Line::Fetch { array, index } => Ok(Line::Fetch {
            array: *array,
            index: operand_for(flat, graph, twins, user, *index),
        }),
        Line::Store {
            array,
            index,
            value,
        } => Ok(Line::Store {
            array: *array,
            index: operand_for(flat, graph, twins, user, *index),
            value: operand_for(flat, graph, twins, user, *value),
        }),
        Line::Un { op, a } => Ok(Line::Un {
            op: *op,
            a: operand_for(flat, graph, twins, user, *a),
        }),
        Line::Bin { op, a, b } => Ok(Line::Bin {
            op: *op,
            a: operand_for(flat, graph, twins, user, *a),
            b: operand_for(flat, graph, twins, user, *b),
        }),
        Line::Cond { c, a, b } => Ok(Line::Cond {
            c: operand_for(flat, graph, twins, user, *c),
            a: operand_for(flat, graph, twins, user, *a),
            b: operand_for(flat, graph, twins, user, *b),
        }),
        Line::Hash {
            unit,
            modulus,
            args,
        } => Ok(Line::Hash {
            unit: *unit,
            modulus: *modulus,
            args: operands_for(alloc, flat, graph, twins, user, args.as_slice())?,
        }),
    }
}
