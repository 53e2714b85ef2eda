//! New numbers for the statements that are kept.

ghost use Rattle.std.specs.Prelude.{◌≡◌, ◌+◌, ◌<◌, ◌^◌, true, IfOk, length, map};
ghost use Rattle.dom_flat.specs.Kept.{are_below, has_word, have_words, is_below, lines_have_words};
ghost use Rattle.dom_flat.specs.Lines.{operands_of};
ghost use Rattle.three_address.specs.inner.Numbering.{all_of, lines_below, number_in, numbers_from};
ghost use Rattle.three_address.specs.Needs.{kept, line_renumbered, renumbered as operand_renumbered};
ghost use Rattle.three_address.specs.Statements.{numbered as numbered_form};

use dom_flat::{Line, LineList, Operand, Operands};
use dom_words::{Memory, Seq};
use std::alloc::Global;

/// The new number of each statement's value.
pub(crate) fn numbers(alloc: Global, fields: u32, marks: &[bool]) -> Result<Vec<u32>, Memory>
    requires { fields + length marks.now < 2 ^ 32 }
    ensures { IfOk result (λ n. n.items ≡ numbers_from fields marks.now) }
{
    let mut numbers = Vec::new(alloc);
    let mut next = fields;
    for mark in marks {
        let Ok(()) = numbers.push(next) else {
            return Err(Memory);
        };
        if *mark {
            next += 1;
        }
    }
    Ok(numbers)
}

/// An operand with its new number.
fn renumbered(operand: Operand, fields: u32, numbers: &[u32]) -> Operand
    requires { is_below (fields + length numbers.now) operand ≡ true }
    ensures same { result ≡ operand_renumbered (number_in fields numbers.now) operand }
    ensures word { has_word result ≡ true }
{
    match operand {
        Operand::Const(word) => Operand::Const(word),
        Operand::Value(value) if value < fields => Operand::Value(value),
        Operand::Value(value) => Operand::Value(numbers[(value - fields) as usize]),
    }
}

/// Operands with their new numbers.
pub(crate) fn all_renumbered(
    alloc: Global,
    operands: &[Operand],
    fields: u32,
    numbers: &[u32],
) -> Result<Operands, Memory>
    requires { are_below (fields + length numbers.now) operands.now ≡ true }
    ensures same { IfOk result (λ all. all ≡ map (operand_renumbered (number_in fields numbers.now)) operands.now) }
    ensures words { IfOk result (λ all. have_words all ≡ true) }
{
    let mut all = Seq::new(alloc);
    for operand in operands {
        all.push(renumbered(*operand, fields, numbers))?;
    }
    Ok(all)
}

/// A statement with the new numbers of its operands.
fn line_with_numbers(
    alloc: Global,
    line: &Line,
    fields: u32,
    numbers: &[u32],
) -> Result<Line, Memory>
    requires { are_below (fields + length numbers.now) (operands_of line.now) ≡ true }
    ensures same { IfOk result (λ l. l ≡ line_renumbered (number_in fields numbers.now) line.now) }
    ensures words { IfOk result (λ l. have_words (operands_of l) ≡ true) }
{
    match line {
        Line::Fetch { array, index } => Ok(Line::Fetch {
            array: *array,
            index: renumbered(*index, fields, numbers),
        }),
        Line::Store {
            array,
            index,
            value,
        } => Ok(Line::Store {
            array: *array,
            index: renumbered(*index, fields, numbers),
            value: renumbered(*value, fields, numbers),
        }),
        Line::Un { op, a } => Ok(Line::Un {
            op: *op,
            a: renumbered(*a, fields, numbers),
        }),
        Line::Bin { op, a, b } => Ok(Line::Bin {
            op: *op,
            a: renumbered(*a, fields, numbers),
            b: renumbered(*b, fields, numbers),
        }),
        Line::Cond { c, a, b } => Ok(Line::Cond {
            c: renumbered(*c, fields, numbers),
            a: renumbered(*a, fields, numbers),
            b: renumbered(*b, fields, numbers),
        }),
        Line::Hash {
            unit,
            modulus,
            args,
        } => Ok(Line::Hash {
            unit: *unit,
            modulus: *modulus,
            args: all_renumbered(alloc, args.as_slice(), fields, numbers)?,
        }),
    }
}

/// The statements with a mark, with the new numbers of their operands.
pub(crate) fn kept_lines(
    alloc: Global,
    lines: &[Line],
    marks: &[bool],
    fields: u32,
    numbers: &[u32],
) -> Result<LineList, Memory>
    requires marks { length marks.now ≡ length lines.now }
    requires operands { lines_below (fields + length numbers.now) lines.now ≡ true }
    ensures same { IfOk result (λ all. all ≡ map (line_renumbered (number_in fields numbers.now)) (kept marks.now lines.now)) }
    ensures words { IfOk result (λ all. lines_have_words all ≡ true) }
{
    let mut all = Seq::new(alloc);
    for (k, line) in lines.iter().enumerate() {
        if marks[k] {
            all.push(line_with_numbers(alloc, line, fields, numbers)?)?;
        }
    }
    Ok(all)
}

/// The statements with a mark and the outputs, with new numbers from 0 on.
pub(crate) fn numbered(
    alloc: Global,
    lines: &[Line],
    outputs: &[Operand],
    marks: &[bool],
    fields: u32,
) -> Result<(LineList, Operands), Memory>
    requires marks { length marks.now ≡ length lines.now }
    requires few { fields + length lines.now < 2 ^ 32 }
    requires lines { lines_below (fields + length lines.now) lines.now ≡ true }
    requires outputs { are_below (fields + length lines.now) outputs.now ≡ true }
    ensures lines { IfOk result (λ r. r.0 ≡ (numbered_form fields marks.now (all_of lines.now outputs.now)).lines) }
    ensures outputs { IfOk result (λ r. r.1 ≡ (numbered_form fields marks.now (all_of lines.now outputs.now)).operands) }
    ensures words { IfOk result (λ r. lines_have_words r.0 ≡ true) }
    ensures output_words { IfOk result (λ r. have_words r.1 ≡ true) }
{
    let numbers = numbers(alloc, fields, marks)?;
    let kept = kept_lines(alloc, lines, marks, fields, numbers.as_slice())?;
    let outputs = all_renumbered(alloc, outputs, fields, numbers.as_slice())?;
    Ok((kept, outputs))
}
