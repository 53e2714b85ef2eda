//! Which statements are needed.

ghost use Rattle.std.specs.Prelude.{◌≡◌, ◌+◌, ◌<◌, ◌^◌, true, false, IfOk, fold, length, replicate};
ghost use Rattle.dom_flat.specs.Kept.{are_after, are_below, entered, has_array, is_below, lines_within};
ghost use Rattle.dom_flat.specs.Lines.{operands_of};
ghost use Rattle.three_address.specs.inner.Marking.{all_marked, is_marked_flank as is_flank_with_mark, marked, store_marked, swept_one};
ghost use Rattle.three_address.specs.Needs.{count as marks_in, needed as needed_of};

use dom_flat::{Line, Operand};
use dom_words::Memory;
use std::alloc::Global;

/// Marks the statement that makes the operand, if one does.
fn mark(fields: u32, operand: Operand, marks: &mut [bool])
    requires { is_below (fields + length marks.old) operand ≡ true }
    ensures { marks.new ≡ marked fields marks.old operand }
{
    if let Operand::Value(value) = operand {
        if value >= fields {
            marks[(value - fields) as usize] = true;
        }
    }
}

fn mark_all(fields: u32, operands: &[Operand], marks: &mut [bool])
    requires { are_below (fields + length marks.old) operands.now ≡ true }
    ensures { marks.new ≡ all_marked fields marks.old operands.now }
{
    for operand in operands {
        mark(fields, *operand, marks);
    }
}

/// Marks the statements whose values a statement uses.
fn mark_uses(fields: u32, line: &Line, marks: &mut [bool])
    requires { are_below (fields + length marks.old) (operands_of line.now) ≡ true }
    ensures { marks.new ≡ all_marked fields marks.old (operands_of line.now) }
{
    match line {
        Line::Fetch { index, .. } => mark(fields, *index, marks),
        Line::Store { index, value, .. } => {
            mark(fields, *index, marks);
            mark(fields, *value, marks);
        }
        Line::Un { a, .. } => mark(fields, *a, marks),
        Line::Bin { a, b, .. } => {
            mark(fields, *a, marks);
            mark(fields, *b, marks);
        }
        Line::Cond { c, a, b } => {
            mark(fields, *c, marks);
            mark(fields, *a, marks);
            mark(fields, *b, marks);
        }
        Line::Hash { args, .. } => mark_all(fields, args.as_slice(), marks),
    }
}

/// Which arrays have a write flank.
fn stored_arrays(alloc: Global, lines: &[Line], arrays: usize) -> Result<Vec<bool>, Memory>
    requires { lines_within arrays lines.now ≡ true }
    ensures { IfOk result (λ s. s.items ≡ fold store_marked (replicate arrays false) lines.now) }
{
    let mut stored = vec![in alloc; false; arrays].map_err(|_| Memory)?;
    for line in lines {
        mark_store(line, stored.as_mut_slice());
    }
    Ok(stored)
}

/// Marks the array that a statement writes, if it writes one.
fn mark_store(line: &Line, stored: &mut [bool])
    requires { has_array (length stored.old) line.now ≡ true }
    ensures { stored.new ≡ store_marked stored.old line.now }
{
    if let Line::Store { array, .. } = line {
        stored[*array as usize] = true;
    }
}

/// Whether a statement is a write flank, or the read flank of an array that has one.
fn is_marked_flank(line: &Line, stored: &[bool]) -> bool
    requires { has_array (length stored.now) line.now ≡ true }
    ensures { result ≡ is_flank_with_mark stored.now line.now }
{
    match line {
        Line::Fetch { array, .. } => stored[*array as usize],
        Line::Store { .. } => true,
        _ => false,
    }
}

/// Where statement `k` is needed, marks it and those whose values it uses.
fn sweep(fields: u32, k: usize, line: &Line, stored: &[bool], marks: &mut [bool])
    requires within { k < length marks.old }
    requires array { has_array (length stored.now) line.now ≡ true }
    requires operands { are_below (fields + length marks.old) (operands_of line.now) ≡ true }
    ensures { marks.new ≡ swept_one fields stored.now k line.now marks.old }
{
    if marks[k] || is_marked_flank(line, stored) {
        marks[k] = true;
        mark_uses(fields, line, marks);
    }
}

/// Which statements are needed: a write flank is, and the read flank of an array that has one, and each statement whose
/// value an output or a needed statement uses.
pub(crate) fn needed(
    alloc: Global,
    fields: u32,
    arrays: usize,
    lines: &[Line],
    outputs: &[Operand],
) -> Result<Vec<bool>, Memory>
    requires ranges { lines_within arrays lines.now ≡ true }
    requires order { are_after (entered fields) lines.now ≡ true }
    requires outputs { are_below (fields + length lines.now) outputs.now ≡ true }
    ensures { IfOk result (λ marks. marks.items ≡ needed_of lines.now outputs.now fields lines.now) }
{
    let stored = stored_arrays(alloc, lines, arrays)?;
    let mut marks = vec![in alloc; false; lines.len()].map_err(|_| Memory)?;
    mark_all(fields, outputs, marks.as_mut_slice());
    let mut k = lines.len();
    while k > 0 {
        k -= 1;
        sweep(
            fields,
            k,
            &lines[k],
            stored.as_slice(),
            marks.as_mut_slice(),
        );
    }
    Ok(marks)
}

/// How many marks there are.
pub(crate) fn count(marks: &[bool]) -> u32
    requires { length marks.now < 2 ^ 32 }
    ensures { result ≡ marks_in marks.now }
{
    let mut count = 0;
    for mark in marks {
        if *mark {
            count += 1;
        }
    }
    count
}
