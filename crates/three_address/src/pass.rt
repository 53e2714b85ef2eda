ghost use Rattle.std.specs.Prelude.{◌≡◌, ◌+◌, ◌<◌, ◌≤◌, ◌^◌, [], IfErr, IfOk, length, map, true};
ghost use Rattle.dom_words.specs.State.{AgreeUnder, IsSmallHash};
ghost use Rattle.dom_ast.specs.Named.{are_in_order, are_named, are_outputs, makes_of, named_form, named_nodes, named_outcome};
ghost use Rattle.dom_ast.specs.Resolved.{form};
ghost use Rattle.dom_flat.specs.Kept.{are_after, are_below, entered, have_words, lines_have_words, lines_within};
ghost use Rattle.dom_flat.specs.Meaning.{flat_outcome};
ghost use Rattle.three_address.specs.Statements.{IsRefused, needed_only, statements};
ghost use Rattle.three_address.specs.inner.Numbering.{all_of};

use crate::fault::FlatFault;
use crate::items::all_statements;
use crate::needs::{count, needed};
use crate::numbering::numbered;
use dom_ast::{Named, NamedItem, Part};
use dom_flat::{Flat, Line, LineList, Operand, Operands};
use std::alloc::Global;

/// The statements that are needed, numbered from 0, and the outputs.
fn keep_needed(
    alloc: Global,
    lines: &[Line],
    outputs: &[Operand],
    fields: u32,
    arrays: usize,
) -> Result<(LineList, Operands), FlatFault>
    requires few { fields + length lines.now < 2 ^ 32 }
    requires ranges { lines_within arrays lines.now ≡ true }
    requires order { are_after (entered fields) lines.now ≡ true }
    requires outputs { are_below (fields + length lines.now) outputs.now ≡ true }
    ensures lines { IfOk result (λ r. r.0 ≡ (needed_only fields (all_of lines.now outputs.now)).lines) }
    ensures outputs { IfOk result (λ r. r.1 ≡ (needed_only fields (all_of lines.now outputs.now)).operands) }
    ensures few { IfOk result (λ r. length r.0 ≤ 512) }
    ensures words { IfOk result (λ r. lines_have_words r.0 ≡ true) }
    ensures output_words { IfOk result (λ r. have_words r.1 ≡ true) }
    ensures refused { IfErr result (λ fault. IsRefused fault (length (needed_only fields (all_of lines.now outputs.now)).lines)) }
{
    let Ok(marks) = needed(alloc, fields, arrays, lines, outputs) else {
        return Err(FlatFault::Memory);
    };
    let count = count(marks.as_slice());
    if count > 512 {
        return Err(FlatFault::TooManyStatements(count));
    }
    let Ok((lines, outputs)) = numbered(alloc, lines, outputs, marks.as_slice(), fields) else {
        return Err(FlatFault::Memory);
    };
    Ok((lines, outputs))
}

/// The statements of items that are needed, and the outputs.
fn needed_statements(
    alloc: Global,
    items: &[NamedItem],
    outputs: &[Part],
    fields: u32,
    arrays: usize,
) -> Result<(LineList, Operands), FlatFault>
    requires few { named_nodes (map named_form items.now) (map form outputs.now) < 2 ^ 25 }
    requires few_fields { fields ≤ 64 }
    requires ranges { are_named fields arrays [] (map named_form items.now) ≡ true }
    requires order { are_in_order (map named_form items.now) ≡ true }
    requires output_ranges { are_outputs fields (makes_of (map named_form items.now)) (map form outputs.now) ≡ true }
    ensures lines { IfOk result (λ r. r.0 ≡ (statements fields (map named_form items.now) (map form outputs.now)).lines) }
    ensures outputs { IfOk result (λ r. r.1 ≡ (statements fields (map named_form items.now) (map form outputs.now)).operands) }
    ensures few { IfOk result (λ r. length r.0 ≤ 512) }
    ensures words { IfOk result (λ r. lines_have_words r.0 ≡ true) }
    ensures output_words { IfOk result (λ r. have_words r.1 ≡ true) }
    ensures refused { IfErr result (λ fault. IsRefused fault (length (statements fields (map named_form items.now) (map form outputs.now)).lines)) }
{
    let Ok((lines, operands)) = all_statements(alloc, items, outputs, fields) else {
        return Err(FlatFault::Memory);
    };
    keep_needed(alloc, lines.as_slice(), operands.as_slice(), fields, arrays)
}

/// The program as a list of statements of one operation each. An expression is flattened from left to right, operands before
/// the operator; a conditional flattens its condition, its first and its second operand. No constants are folded. A hash
/// whose answer is taken modulo a number from 1 to 2147483647 is one statement. Then the statements stay that are needed:
/// write flanks, the read flanks of arrays that have one, and statements whose value an output or a needed statement uses
/// (Sivaraman et al., "Packet Transactions", SIGCOMM 2016, "Flattening to three-address code").
pub fn flatten(alloc: Global, steps: Named) -> Result<Flat, FlatFault>
    requires few { named_nodes (map named_form steps.items) (map form steps.outputs) < 2 ^ 25 }
    ensures lines { IfOk result (λ f. f.lines ≡ (statements (length steps.fields) (map named_form steps.items) (map form steps.outputs)).lines) }
    ensures outputs { IfOk result (λ f. f.outputs ≡ (statements (length steps.fields) (map named_form steps.items) (map form steps.outputs)).operands) }
    ensures fields { IfOk result (λ f. f.fields ≡ steps.fields) }
    ensures arrays { IfOk result (λ f. f.arrays ≡ steps.arrays) }
    ensures few { IfOk result (λ f. length f.lines ≤ 512) }
    ensures means { IfOk result (λ f. AgreeUnder (λ hash packet state. IsSmallHash hash × (length packet ≡ length steps.fields)) (λ hash. flat_outcome hash f.lines f.outputs) (λ hash. named_outcome hash (map named_form steps.items) (map form steps.outputs))) }
    ensures refused { IfErr result (λ fault. IsRefused fault (length (statements (length steps.fields) (map named_form steps.items) (map form steps.outputs)).lines)) }
{
    let Named {
        fields,
        arrays,
        items,
        outputs,
    } = steps;
    let (lines, outputs) = needed_statements(
        alloc,
        items.as_slice(),
        outputs.as_slice(),
        fields.len() as u32,
        arrays.len(),
    )?;
    Ok(Flat {
        fields,
        arrays,
        lines,
        outputs,
    })
}
