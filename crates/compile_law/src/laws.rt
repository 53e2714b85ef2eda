//! Laws of compiled parts. A call does nothing.
ghost use Rattle.std.specs.Prelude.{◌≡◌, ℕ, Bool, true, List, None, length, map};
ghost use Rattle.dom_words.specs.State.{Hash};
ghost use Rattle.dom_flat.specs.Meaning.{flat_outcome};
ghost use Rattle.stage_plan.specs.declared.place.Place.{Place};
ghost use Rattle.stage_plan.specs.Schedule.{IsPlan};
ghost use Rattle.atom_match.specs.Atoms.{AtomForm, first_outside};
ghost use Rattle.banzai_config.specs.Action.{Arrays, outcome_of};
ghost use Rattle.banzai_config.specs.Checked.{shape_with};
ghost use Rattle.banzai_config.specs.Legal.{LegalFor, are_names, name_of_array};
ghost use Rattle.compile_law.specs.Compiled.{AreAtomsOf, compiled_parts};
ghost use Rattle.compile_law.specs.Runs.{RunsAs};

use atom_traits::AtomTemplate;
use codelets::Codelets;

/// One packet through all stages and the outputs of the compiled parts is what the statement list makes of it: for every
/// plan, every hash and every state.
pub fn compiled_does_as_listed(codelets: &Codelets)
    ensures { (depth : ℕ) (stateless : ℕ) (stateful : ℕ) (atoms : List AtomForm) (places : List Place) → AreAtomsOf codelets.now atoms → IsPlan depth stateless stateful codelets.now.list places → (hash : Hash) (state : Arrays) (packet : List ℕ) → length packet ≡ length codelets.now.flat.fields → outcome_of hash (compiled_parts codelets.now depth atoms places) state packet ≡ flat_outcome hash codelets.now.flat.lines codelets.now.flat.outputs packet state }
{}

/// One packet after another through the compiled parts, from the initial words of the arrays, is the serial run of every
/// meaning of the statement list.
pub fn compiled_is_serial(codelets: &Codelets)
    ensures { (depth : ℕ) (stateless : ℕ) (stateful : ℕ) (atoms : List AtomForm) (places : List Place) → AreAtomsOf codelets.now atoms → IsPlan depth stateless stateful codelets.now.list places → RunsAs codelets.now.flat (compiled_parts codelets.now depth atoms places) }
{}

/// The compiled parts are legal for each target of these numbers whose template the trees fit and which has multipliers
/// where an operator needs one, where the names of fields and those of arrays differ and are spelled as names.
pub fn compiled_is_legal<T: AtomTemplate>(codelets: &Codelets)
    ensures { (depth : ℕ) (stateless : ℕ) (stateful : ℕ) (multiplies : Bool) (atoms : List AtomForm) (places : List Place) → AreAtomsOf codelets.now atoms → IsPlan depth stateless stateful codelets.now.list places → first_outside T.fits multiplies codelets.now ≡ None → are_names codelets.now.flat.fields ≡ true → are_names (map name_of_array codelets.now.flat.arrays) ≡ true → LegalFor (shape_with T.fits T.CONST_BITS depth stateless stateful multiplies) (compiled_parts codelets.now depth atoms places) }
{}
