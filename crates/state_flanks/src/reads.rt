//! Read flanks.

ghost use Rattle.std.specs.Prelude.{◌≡◌, ◌++◌, OnOk, map};
ghost use Rattle.dom_ast.specs.Flanks.{flank_form};
ghost use Rattle.dom_ast.specs.Kept.{goal_mentions, mention, ops_mentions, part_mentions, parts_mentions};
ghost use Rattle.dom_ast.specs.Resolved.{form, forms};
ghost use Rattle.dom_ast.specs.inner.PartOps.{op_forms};
ghost use Rattle.state_flanks.specs.inner.Tables.{marked, marks, new_read, reads};

use dom_ast::{FlankItem, FlankList, Goal, Part, Place};
use dom_words::{BinOp, Memory};

/// Puts a read flank at the end where the array has not been mentioned, and marks it.
fn put_read(
    array: u32,
    index: Place,
    mentioned: &mut [bool],
    items: &mut FlankList,
) -> Result<(), Memory>
    ensures items { OnOk result (map flank_form items.new ≡ map flank_form items.old ++ new_read mentioned.old (mention array index)) }
    ensures mentioned { OnOk result (mentioned.new ≡ marked mentioned.old (mention array index)) }
{
    let number = array as usize;
    if number < mentioned.len() && !mentioned[number] {
        mentioned[number] = true;
        items.push(FlankItem::Read { array, index })?;
    }
    Ok(())
}

/// Puts the read flanks of the arrays at the end that an expression is the first to mention, from left to right, and marks
/// these arrays.
#[cycle(reads)]
pub(crate) fn put_reads(
    part: &Part,
    mentioned: &mut [bool],
    items: &mut FlankList,
) -> Result<(), Memory>
    ensures items { OnOk result (map flank_form items.new ≡ map flank_form items.old ++ reads mentioned.old (part_mentions (form part.now))) }
    ensures mentioned { OnOk result (mentioned.new ≡ marks mentioned.old (part_mentions (form part.now))) }
{
    match part {
        Part::Number(_) | Part::Field(_) | Part::Fresh(_) | Part::Made(_) => Ok(()),
        Part::State { array, index } => put_read(*array, *index, mentioned, items),
        Part::Call { args, .. } => put_args(args.as_slice(), mentioned, items),
        Part::Un { arg, .. } => put_reads(arg, mentioned, items),
        Part::Chain { first, rest } => {
            put_reads(first, mentioned, items)?;
            put_operands(rest.as_slice(), mentioned, items)?;
            Ok(())
        }
        Part::Cond { test, yes, no } => {
            put_reads(test, mentioned, items)?;
            put_reads(yes, mentioned, items)?;
            put_reads(no, mentioned, items)?;
            Ok(())
        }
    }
}

#[cycle(reads)]
fn put_args(parts: &[Part], mentioned: &mut [bool], items: &mut FlankList) -> Result<(), Memory>
    ensures items { OnOk result (map flank_form items.new ≡ map flank_form items.old ++ reads mentioned.old (parts_mentions (forms parts.now))) }
    ensures mentioned { OnOk result (mentioned.new ≡ marks mentioned.old (parts_mentions (forms parts.now))) }
{
    for part in parts {
        put_reads(part, mentioned, items)?;
    }
    Ok(())
}

#[cycle(reads)]
fn put_operands(
    operands: &[(BinOp, Part)],
    mentioned: &mut [bool],
    items: &mut FlankList,
) -> Result<(), Memory>
    ensures items { OnOk result (map flank_form items.new ≡ map flank_form items.old ++ reads mentioned.old (ops_mentions (op_forms operands.now))) }
    ensures mentioned { OnOk result (mentioned.new ≡ marks mentioned.old (ops_mentions (op_forms operands.now))) }
{
    for (_, operand) in operands {
        put_reads(operand, mentioned, items)?;
    }
    Ok(())
}

/// Puts the read flank of a target at the end where it is the first mention of its array, and marks it.
pub(crate) fn put_target(
    target: Goal,
    mentioned: &mut [bool],
    items: &mut FlankList,
) -> Result<(), Memory>
    ensures items { OnOk result (map flank_form items.new ≡ map flank_form items.old ++ reads mentioned.old (goal_mentions target)) }
    ensures mentioned { OnOk result (mentioned.new ≡ marks mentioned.old (goal_mentions target)) }
{
    match target {
        Goal::State { array, index } => put_read(array, index, mentioned, items),
        Goal::Field(_) | Goal::Fresh(_) => Ok(()),
    }
}
