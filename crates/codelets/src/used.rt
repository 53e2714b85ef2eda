//! The numbers that make the values which codelets use.
ghost use Rattle.std.specs.Prelude.{◌≡◌, IfOk, length};
ghost use Rattle.std.specs.List.{list_any};
ghost use Rattle.codelets.specs.ByRows.{cut_by};
ghost use Rattle.codelets.specs.Cut.{line_uses, lines_by_number};
ghost use Rattle.codelets.specs.Linked.{uses_value};
ghost use Rattle.codelets.specs.Used.{Added, AreUsed};
ghost use Rattle.dom_flat.specs.Lines.{is_value, uses};

use crate::table::{Table, line_at};
use dep_graph::Graph;
use dom_flat::{Flat, Line, Operand};
use dom_words::{Memory, Numbers, Seq};
use std::alloc::Global;

// Puts the number that makes the value of an operand at the end.
fn add_operand(numbers: &mut Numbers, fields: u32, operand: Operand) -> Result<(), Memory>
    ensures { IfOk result (λ _. Added fields (λ v. is_value v operand) numbers.old numbers.new) }
{
    match operand {
        Operand::Const(_) => Ok(()),
        Operand::Value(value) => {
            if fields <= value {
                numbers.push(value - fields)
            } else {
                Ok(())
            }
        }
    }
}

// Puts the numbers that make the values of operands at the end.
fn add_operands(numbers: &mut Numbers, fields: u32, operands: &[Operand]) -> Result<(), Memory>
    ensures { IfOk result (λ _. Added fields (λ v. uses v operands.now) numbers.old numbers.new) }
{
    for operand in operands {
        add_operand(numbers, fields, *operand)?;
    }
    Ok(())
}

// Puts the numbers that make the values which a statement uses at the end.
fn add_line(numbers: &mut Numbers, fields: u32, line: &Line) -> Result<(), Memory>
    ensures { IfOk result (λ _. Added fields (λ v. uses_value v line.now) numbers.old numbers.new) }
{
    match line {
        Line::Fetch { index, .. } => add_operands(numbers, fields, &[*index]),
        Line::Store { index, value, .. } => add_operands(numbers, fields, &[*index, *value]),
        Line::Un { a, .. } => add_operands(numbers, fields, &[*a]),
        Line::Bin { a, b, .. } => add_operands(numbers, fields, &[*a, *b]),
        Line::Cond { c, a, b } => add_operands(numbers, fields, &[*c, *a, *b]),
        Line::Hash { args, .. } => add_operands(numbers, fields, args.as_slice()),
    }
}

// The same of the statement with a number.
fn add_number(
    numbers: &mut Numbers,
    flat: &Flat,
    graph: &Graph,
    table: &Table,
    number: u32,
) -> Result<(), Memory>
    requires { table.now ≡ lines_by_number (cut_by flat.now graph.now) }
    ensures { IfOk result (λ _. Added (length flat.now.fields) (λ v. line_uses (cut_by flat.now graph.now) v number) numbers.old numbers.new) }
{
    if let Some(line) = line_at(table, number) {
        add_line(numbers, flat.fields.len() as u32, line)?;
    }
    Ok(())
}

// The same of the statements of a codelet.
fn add_piece(
    numbers: &mut Numbers,
    flat: &Flat,
    graph: &Graph,
    table: &Table,
    c: &[u32],
) -> Result<(), Memory>
    requires { table.now ≡ lines_by_number (cut_by flat.now graph.now) }
    ensures { IfOk result (λ _. Added (length flat.now.fields) (λ v. list_any (line_uses (cut_by flat.now graph.now) v) c.now) numbers.old numbers.new) }
{
    for number in c {
        add_number(numbers, flat, graph, table, *number)?;
    }
    Ok(())
}

/// The numbers that make the values which a codelet uses, as often as it uses them.
pub fn used_numbers(
    alloc: Global,
    flat: &Flat,
    graph: &Graph,
    table: &Table,
    c: &[u32],
) -> Result<Numbers, Memory>
    requires { table.now ≡ lines_by_number (cut_by flat.now graph.now) }
    ensures { IfOk result (λ ns. AreUsed (length flat.now.fields) (λ v. list_any (line_uses (cut_by flat.now graph.now) v) c.now) ns) }
{
    let mut numbers = Seq::new(alloc);
    add_piece(&mut numbers, flat, graph, table, c)?;
    Ok(numbers)
}
