ghost use Rattle.std.specs.Prelude.{◌≡◌, ◌≤◌, length, map};
ghost use Rattle.banzai_config.specs.Fitted.{atoms_have, fitted_form, slots_have};
ghost use Rattle.banzai_config.specs.Legal.{has};
ghost use Rattle.banzai_config.specs.Named.{stage_arrays};
ghost use Rattle.banzai_config.specs.Places.{place_of};

use crate::config::FitStage;
use crate::parts::{FitAtom, PartSlot};
use atom_traits::AtomTemplate;

/// The first of these stages whose atoms hold an array, counted from 1.
pub(crate) fn first_holder<T: AtomTemplate>(stages: &[FitStage<T>], array: usize) -> Option<u32>
    requires { length stages.now ≤ 65535 }
    ensures { result ≡ place_of (map (fitted_form T.trees_of) stages.now) array }
{
    for k in 0..stages.len() {
        if holds_array::<T>(&stages[k], array) {
            return Some(k as u32 + 1);
        }
    }
    None
}

// Whether the atoms of a stage hold an array.
fn holds_array<T: AtomTemplate>(stage: &FitStage<T>, array: usize) -> bool
    ensures { result ≡ has array (stage_arrays (fitted_form T.trees_of stage.now)) }
{
    let atoms = stage.stateful.as_slice();
    have_array::<T>(atoms, array)
}

// Whether one of these atoms has a slot of an array.
fn have_array<T: AtomTemplate>(atoms: &[FitAtom<T::Params>], array: usize) -> bool
    ensures { result ≡ atoms_have array atoms.now }
{
    for atom in atoms {
        if is_array_of(atom.slots.as_slice(), array) {
            return true;
        }
    }
    false
}

// Whether one of these slots is an array's.
fn is_array_of(slots: &[PartSlot], array: usize) -> bool
    ensures { result ≡ slots_have array slots.now }
{
    slots.iter().any(|slot| array == slot.array as usize)
}
