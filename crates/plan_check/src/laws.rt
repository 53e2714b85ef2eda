//! Laws of plans by hand. A call does nothing.
ghost use Rattle.std.specs.Prelude.{◌≡◌, ◌<◌, ◌^◌, ℕ, [], Bool, true, List, None, Result, length, map};
ghost use Rattle.dom_words.specs.State.{Hash};
ghost use Rattle.dom_flat.specs.Meaning.{flat_outcome};
ghost use Rattle.codelets.specs.declared.codelet.Codelet.{Codelet};
ghost use Rattle.codelets.specs.Leveled.{AreLeveled};
ghost use Rattle.stage_plan.specs.declared.place.Place.{Place};
ghost use Rattle.stage_plan.specs.Schedule.{IsPlan, all_placed, schedule};
ghost use Rattle.atom_match.specs.Atoms.{AtomForm, first_outside};
ghost use Rattle.banzai_config.specs.Action.{Arrays, outcome_of};
ghost use Rattle.banzai_config.specs.Checked.{shape_with};
ghost use Rattle.banzai_config.specs.Legal.{LegalFor, Shape, are_names, name_of_array};
ghost use Rattle.compile_law.specs.Compiled.{AreAtomsOf, compiled_parts};
ghost use Rattle.compile_law.specs.Runs.{RunsAs};
ghost use Rattle.container_plan.specs.Shared.{shared};
ghost use Rattle.plan_check.specs.HandFaults.{hand_fault};
ghost use Rattle.plan_check.specs.Placed.{placed};
ghost use Rattle.plan_check.specs.PlanText.{IsHandPlan, IsPlanAnswer};

use atom_traits::AtomTemplate;
use codelets::Codelets;

/// A text is one thing for codelets and a depth: one plan, or one first line that is not right.
pub fn one_plan()
    ensures { (depth : ℕ) (cs : List Codelet) (text : List ℕ) (a b : Result (List Place) ℕ) → IsPlanAnswer depth cs text a → IsPlanAnswer depth cs text b → a ≡ b }
{}

/// A plan by hand has no fault exactly where it keeps what every plan keeps.
pub fn accepted_is_plan()
    ensures plan { (depth : ℕ) (sl : ℕ) (sf : ℕ) (cs : List Codelet) (places : List Place) → IsHandPlan depth cs places → hand_fault depth sl sf cs places ≡ None → IsPlan depth sl sf cs places }
    ensures hand { (depth : ℕ) (sl : ℕ) (sf : ℕ) (cs : List Codelet) (places : List Place) → depth < 2 ^ 32 → IsPlan depth sl sf cs places → IsHandPlan depth cs places }
    ensures accepted { (depth : ℕ) (sl : ℕ) (sf : ℕ) (cs : List Codelet) (places : List Place) → IsPlan depth sl sf cs places → hand_fault depth sl sf cs places ≡ None }
{}

/// Where the list schedule places all codelets, its places are those of a plan by hand (`hand`) that has no fault
/// (`accepted`), and codelets at them are what the compiler makes of them: parts at the stages of the schedule whose values
/// share containers (`same`).
pub fn schedule_is_accepted(codelets: &Codelets)
    ensures hand { (depth : ℕ) (sl : ℕ) (sf : ℕ) (places : List Place) → depth < 2 ^ 32 → schedule depth sl sf [] codelets.now.list ≡ all_placed places → IsHandPlan depth codelets.now.list places }
    ensures accepted { (depth : ℕ) (sl : ℕ) (sf : ℕ) (places : List Place) → schedule depth sl sf [] codelets.now.list ≡ all_placed places → hand_fault depth sl sf codelets.now.list places ≡ None }
    ensures same { (depth : ℕ) (atoms : List AtomForm) (places : List Place) → placed codelets.now depth atoms places ≡ shared (compiled_parts codelets.now depth atoms places) }
{}

/// Codelets at the stages of a plan are legal for each target of these numbers whose template the trees fit and which has
/// multipliers where an operator needs one, where the names of fields and those of arrays differ and are spelled as names.
pub fn placed_is_legal<T: AtomTemplate>(codelets: &Codelets)
    ensures { (depth : ℕ) (sl : ℕ) (sf : ℕ) (multiplies : Bool) (atoms : List AtomForm) (places : List Place) → AreAtomsOf codelets.now atoms → IsPlan depth sl sf codelets.now.list places → first_outside T.fits multiplies codelets.now ≡ None → are_names codelets.now.flat.fields ≡ true → are_names (map name_of_array codelets.now.flat.arrays) ≡ true → LegalFor (shape_with T.fits T.CONST_BITS depth sl sf multiplies) (placed codelets.now depth atoms places) }
{}

/// One packet through all stages and the outputs of placed codelets is what the statement list makes of it, for every plan
/// whose parts are legal for some target, every hash and every state.
pub fn placed_does_as_listed(codelets: &Codelets)
    ensures { (s : Shape) (depth : ℕ) (sl : ℕ) (sf : ℕ) (atoms : List AtomForm) (places : List Place) → AreAtomsOf codelets.now atoms → IsPlan depth sl sf codelets.now.list places → LegalFor s (compiled_parts codelets.now depth atoms places) → (hash : Hash) (state : Arrays) (packet : List ℕ) → length packet ≡ length codelets.now.flat.fields → outcome_of hash (placed codelets.now depth atoms places) state packet ≡ flat_outcome hash codelets.now.flat.lines codelets.now.flat.outputs packet state }
{}

/// One packet after another through placed codelets, from the initial words of the arrays, is the serial run of every meaning
/// of the statement list.
pub fn placed_is_serial(codelets: &Codelets)
    ensures { (s : Shape) (depth : ℕ) (sl : ℕ) (sf : ℕ) (atoms : List AtomForm) (places : List Place) → AreAtomsOf codelets.now atoms → IsPlan depth sl sf codelets.now.list places → LegalFor s (compiled_parts codelets.now depth atoms places) → RunsAs codelets.now.flat (placed codelets.now depth atoms places) }
{}
