ghost use Rattle.std.specs.Prelude.{◌≡◌, ◌+◌, ◌<◌, IfOk, OnOk, Some, length, map};
ghost use Rattle.atom_match.specs.Atoms.{atom_form, atom_of};
ghost use Rattle.banzai_config.specs.Parts.{stage_form};
ghost use Rattle.compile_law.specs.Compiled.{part_of, part_slot};
ghost use Rattle.compile_parts.specs.Adding.{with_atom};

use atom_match::{Atom, container, port};
use atom_traits::AtomTemplate;
use banzai_config::{OpAtom, PartSlot, PartSlots, StageParts, TreeAtom, copy_operation};
use codelets::{Codelet, Codelets, Slot};
use dom_words::{Memory, Seq};
use std::alloc::Global;

// The slots of an atom: a codelet's, with ports for their indexes.
fn part_slots(alloc: Global, codelets: &Codelets, slots: &[Slot]) -> Result<PartSlots, Memory>
    ensures { IfOk result (λ parts. parts ≡ map (part_slot codelets.now) slots.now) }
{
    let mut parts = Seq::new(alloc);
    for slot in slots {
        parts.push(PartSlot {
            array: slot.array,
            index: port(codelets, slot.index),
            old: slot.old,
            new: slot.new,
        })?;
    }
    Ok(parts)
}

// The value of a codelet's first statement.
fn first_value(codelets: &Codelets, codelet: &Codelet) -> u32
    requires { codelet.now.first < length codelets.now.table }
    ensures { result ≡ length codelets.now.flat.fields + codelet.now.first }
{
    codelets.flat().fields.len() as u32 + codelet.first
}

/// Puts the atom of a codelet into a stage.
pub(crate) fn add_atom<T: AtomTemplate>(
    alloc: Global,
    stage: &mut StageParts,
    codelets: &Codelets,
    codelet: &Codelet,
    atom: &Atom<T::Params>,
) -> Result<(), Memory>
    requires { atom_of codelets.now codelet.now ≡ Some (atom_form T.trees_of atom.now) }
    ensures { OnOk result (stage_form stage.new ≡ with_atom (part_of codelets.now codelet.now (atom_form T.trees_of atom.now)) (stage_form stage.old)) }
{
    match atom {
        Atom::Stateless(op) => {
            let to = container(codelets, first_value(codelets, codelet));
            let op = copy_operation(alloc, op)?;
            stage.stateless.push(OpAtom { to, op })
        }
        Atom::Stateful(params) => {
            let slots = part_slots(alloc, codelets, codelet.slots.as_slice())?;
            let trees = T::shown(alloc, params)?;
            stage.stateful.push(TreeAtom { slots, trees })
        }
    }
}
