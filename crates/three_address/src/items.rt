//! The statements of items.

ghost use Rattle.std.specs.Prelude.{◌≡◌, ◌+◌, ◌*◌, ◌<◌, ◌≤◌, ◌^◌, [], IfOk, OnOk, length, map, sum};
ghost use Rattle.dom_ast.specs.Named.{item_nodes, named_form, named_nodes};
ghost use Rattle.dom_ast.specs.Resolved.{form};
ghost use Rattle.three_address.specs.Statements.{all_statements as all_of, draft, item_flattened, with_items};

use crate::expressions::{put, put_part, put_parts};
use dom_ast::{NamedItem, Part};
use dom_flat::{Line, LineList, Operand, Operands};
use dom_words::{Memory, Seq};
use std::alloc::Global;

/// Puts the statements of an item at the end and answers its value's operand.
fn put_item(
    alloc: Global,
    item: &NamedItem,
    fields: u32,
    values: &[Operand],
    lines: &mut LineList,
) -> Result<Operand, Memory>
    requires { fields + length lines.old + 2 * item_nodes (named_form item.now) < 2 ^ 32 }
    ensures lines { OnOk result (lines.new ≡ (item_flattened fields values.now lines.old (named_form item.now)).lines) }
    ensures operand { IfOk result (λ o. o ≡ (item_flattened fields values.now lines.old (named_form item.now)).operand) }
    ensures few { OnOk result (length lines.new ≤ length lines.old + 2 * item_nodes (named_form item.now)) }
{
    match item {
        NamedItem::Read { array, index } => {
            let index = put_part(alloc, index, 0, fields, values, lines)?;
            let fetch = Line::Fetch {
                array: *array,
                index,
            };
            let word = put(fields, fetch, lines)?;
            Ok(word)
        }
        NamedItem::Make(part) => {
            let value = put_part(alloc, part, 0, fields, values, lines)?;
            Ok(value)
        }
        NamedItem::Write {
            array,
            index,
            value,
        } => {
            let index = put_part(alloc, index, 0, fields, values, lines)?;
            let value = put_part(alloc, value, 0, fields, values, lines)?;
            let store = Line::Store {
                array: *array,
                index,
                value,
            };
            let number = put(fields, store, lines)?;
            Ok(number)
        }
    }
}

/// Puts the statements of items at the end and answers the operands of their values.
#[tactic(auto, using(crate::proofs::Sizes::items_nodes_cons))]
fn put_items(
    alloc: Global,
    items: &[NamedItem],
    fields: u32,
    lines: &mut LineList,
) -> Result<Vec<Operand>, Memory>
    requires { fields + length lines.old + 2 * sum (map item_nodes (map named_form items.now)) < 2 ^ 32 }
    ensures lines { OnOk result (lines.new ≡ (with_items fields (draft lines.old []) (map named_form items.now)).lines) }
    ensures values { IfOk result (λ v. v.items ≡ (with_items fields (draft lines.old []) (map named_form items.now)).values) }
    ensures few { OnOk result (length lines.new ≤ length lines.old + 2 * sum (map item_nodes (map named_form items.now))) }
{
    let mut values = Vec::new(alloc);
    for item in items {
        let value = put_item(alloc, item, fields, values.as_slice(), lines)?;
        let Ok(()) = values.push(value) else {
            return Err(Memory);
        };
    }
    Ok(values)
}

/// The statements of items, and the operands of the outputs.
#[tactic(auto, using(crate::proofs::Sizes::outputs_nodes))]
pub(crate) fn all_statements(
    alloc: Global,
    items: &[NamedItem],
    outputs: &[Part],
    fields: u32,
) -> Result<(LineList, Operands), Memory>
    requires { fields + 2 * named_nodes (map named_form items.now) (map form outputs.now) < 2 ^ 32 }
    ensures lines { IfOk result (λ r. r.0 ≡ (all_of fields (map named_form items.now) (map form outputs.now)).lines) }
    ensures operands { IfOk result (λ r. r.1 ≡ (all_of fields (map named_form items.now) (map form outputs.now)).operands) }
    ensures few { IfOk result (λ r. length r.0 ≤ 2 * named_nodes (map named_form items.now) (map form outputs.now)) }
{
    let mut lines = Seq::new(alloc);
    let values = put_items(alloc, items, fields, &mut lines)?;
    let operands = put_parts(alloc, outputs, fields, values.as_slice(), &mut lines)?;
    Ok((lines, operands))
}
