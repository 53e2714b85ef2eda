ghost use Rattle.std.specs.Prelude.{◌≡◌, [], ◌<◌, IfOk, length, slice_index_or};
ghost use Rattle.atom_traits.specs.Form.{form_if, forms_if};
ghost use Rattle.atom_match.specs.Classes.{class_of, is_outside, view_alone, view_first, view_second};
ghost use Rattle.atom_match.specs.Resolve.{both_trees, one_tree, slot_tree, tree_of, trees_of};
ghost use Rattle.atom_match.specs.Table.{IsEarlier};

use crate::class::{Flanks, View, flanks_of, makes};
use crate::found::{Answer, Fact};
use crate::table::{answer_of, with_fact};
use atom_traits::{Leaf, Tree, Trees};
use codelets::{Codelet, Codelets};
use dom_flat::Operand;
use dom_words::Memory;
use std::alloc::{AllocError, Global};

// The tree of an operand, with at most so many levels of forks.
#[tactic(auto, using(crate::proofs::Steps::tree_leaf, crate::proofs::Steps::tree_other, crate::proofs::Steps::tree_none, crate::proofs::Steps::tree_end, crate::proofs::Steps::tree_fork))]
fn tree(
    alloc: Global,
    depth: u32,
    codelets: &Codelets,
    codelet: &Codelet,
    view: View,
    facts: &[Fact],
    operand: Operand,
) -> Result<Option<Tree>, AllocError>
    requires { IsEarlier (class_of codelets.now codelet.now) (length codelets.now.flat.lines) }
    ensures { IfOk result (λ t. form_if t ≡ tree_of (class_of codelets.now codelet.now) view depth facts.now operand) }
{
    match answer_of(alloc, codelets, codelet, view, facts, operand)? {
        Answer::Is(leaf) => Ok(Some(Tree::Leaf(leaf))),
        Answer::Other => Ok(None),
        Answer::Nothing => Ok(None),
        Answer::Asks(guard) => {
            if depth == 0 {
                return Ok(None);
            }
            let first = with_fact(alloc, Fact { guard, holds: true }, facts)?;
            let Some(yes) = tree(alloc, depth - 1, codelets, codelet, view, &first, operand)? else {
                return Ok(None);
            };
            let second = with_fact(
                alloc,
                Fact {
                    guard,
                    holds: false,
                },
                facts,
            )?;
            let Some(no) = tree(alloc, depth - 1, codelets, codelet, view, &second, operand)? else {
                return Ok(None);
            };
            let yes = Box::new(alloc, yes)?;
            let no = Box::new(alloc, no)?;
            Ok(Some(Tree::Fork { guard, yes, no }))
        }
    }
}

// The tree of what a slot's write flank stores.
fn tree_of_slot(
    alloc: Global,
    codelets: &Codelets,
    codelet: &Codelet,
    view: View,
    write: Option<Operand>,
) -> Result<Option<Tree>, Memory>
    requires { IsEarlier (class_of codelets.now codelet.now) (length codelets.now.flat.lines) }
    ensures { IfOk result (λ t. form_if t ≡ slot_tree (class_of codelets.now codelet.now) view write) }
{
    match write {
        None => Ok(Some(Tree::Leaf(Leaf::Keep))),
        Some(operand) => {
            let Ok(found) = tree(alloc, 2, codelets, codelet, view, &[], operand) else {
                return Err(Memory);
            };
            Ok(found)
        }
    }
}

fn comes_from_outside(codelets: &Codelets, members: &[u32], operand: Operand) -> bool
    ensures { result ≡ is_outside (length codelets.now.flat.fields) members.now operand }
{
    match operand {
        Operand::Const(_) => true,
        Operand::Value(value) => !makes(codelets, members, value),
    }
}

fn alone(slot: Flanks) -> View
    ensures { result ≡ view_alone slot }
{
    View {
        state: 0,
        read: slot.read,
        other: None,
    }
}

fn as_first(slot: Flanks, other: Flanks) -> View
    ensures { result ≡ view_first slot other }
{
    View {
        state: 0,
        read: slot.read,
        other: Some(other.read),
    }
}

fn as_second(other: Flanks, slot: Flanks) -> View
    ensures { result ≡ view_second other slot }
{
    View {
        state: 1,
        read: slot.read,
        other: Some(other.read),
    }
}

fn with_one(first: Option<Tree>) -> Option<Trees>
    ensures { forms_if result ≡ one_tree (form_if first) }
{
    match first {
        Some(first) => Some(Trees {
            first,
            second: None,
        }),
        None => None,
    }
}

fn with_both(first: Option<Tree>, second: Option<Tree>) -> Option<Trees>
    ensures { forms_if result ≡ both_trees (form_if first) (form_if second) }
{
    match first {
        Some(first) => match second {
            Some(second) => Some(Trees {
                first,
                second: Some(second),
            }),
            None => None,
        },
        None => None,
    }
}

/// The trees of a codelet's slots, in the order of its arrays; `None` exactly where they don't exist
/// (docs/MACHINE.md, "Trees").
pub(crate) fn trees_of_codelet(
    alloc: Global,
    codelets: &Codelets,
    codelet: &Codelet,
) -> Result<Option<Trees>, Memory>
    requires { IsEarlier (class_of codelets.now codelet.now) (length codelets.now.flat.lines) }
    ensures { IfOk result (λ t. forms_if t ≡ trees_of (class_of codelets.now codelet.now)) }
{
    let members = codelet.lines.as_slice();
    match codelet.slots.as_slice() {
        [slot] => {
            if !comes_from_outside(codelets, members, slot.index) {
                return Ok(None);
            }
            let slot = flanks_of(codelets, members, *slot);
            let first = tree_of_slot(alloc, codelets, codelet, alone(slot), slot.write)?;
            Ok(with_one(first))
        }
        [slot, next] => {
            if !comes_from_outside(codelets, members, slot.index)
                || !comes_from_outside(codelets, members, next.index)
            {
                return Ok(None);
            }
            let slot = flanks_of(codelets, members, *slot);
            let next = flanks_of(codelets, members, *next);
            let first = tree_of_slot(alloc, codelets, codelet, as_first(slot, next), slot.write)?;
            let second = tree_of_slot(alloc, codelets, codelet, as_second(slot, next), next.write)?;
            Ok(with_both(first, second))
        }
        _ => Ok(None),
    }
}
