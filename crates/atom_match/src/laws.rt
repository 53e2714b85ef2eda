//! What holds of the atoms of all codelets. A call does nothing.

ghost use Rattle.std.specs.Prelude.{◌≡◌, ℕ, Some, slice_get};
ghost use Rattle.codelets.specs.declared.codelet.Codelet.{Codelet};
ghost use Rattle.codelets.specs.Flat.{linked_of};
ghost use Rattle.atom_match.specs.Atoms.{AtomForm, atom_of};
ghost use Rattle.atom_match.specs.Meaning.{IsAtomOf};

use codelets::Codelets;

/// An atom does what its codelet does: on all words its trees mean what the codelet's write flanks store, or its operator
/// is that of the codelet's statement. It reads no containers but those of values that enter the codelet.
pub fn atoms_do_what_codelets_do(codelets: &Codelets)
    ensures { (k : ℕ) (c : Codelet) (a : AtomForm) → slice_get codelets.now.list k ≡ Some c → atom_of codelets.now c ≡ Some a → IsAtomOf (linked_of codelets.now.flat) c.lines a }
{}
