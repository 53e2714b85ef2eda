ghost use Rattle.std.specs.Prelude.{◌≡◌, ◌≤◌, IfOk, None, OnOk, map, true};
ghost use Rattle.stage_plan.specs.Schedule.{IsPlan};
ghost use Rattle.atom_match.specs.Atoms.{atom_form, first_outside};
ghost use Rattle.banzai_config.specs.Checked.{shape_with};
ghost use Rattle.banzai_config.specs.Legal.{LegalFor, are_names, name_of_array};
ghost use Rattle.compile_law.specs.Compiled.{AreAtomsOf, compiled_parts};
ghost use Rattle.plan_check.specs.Placed.{placed};

use crate::plan::HandPlan;
use atom_match::Atoms;
use atom_traits::AtomTemplate;
use banzai_config::Config;
use codelets::Codelets;
use compile_parts::configured;
use container_plan::share;
use dom_words::Memory;
use stage_plan::{Place, Stages};
use std::alloc::Global;

fn copied(alloc: Global, places: &[Place]) -> Result<Stages, Memory>
    ensures { IfOk result (λ stages. stages ≡ places.now) }
{
    let mut copy = Vec::new(alloc);
    for place in places {
        copy.push(*place).map_err(|_| Memory)?;
    }
    Ok(Stages::of(copy))
}

/// The configuration of codelets whose atoms stand at the stages of an accepted plan, on a pipeline with `DEPTH` stages of
/// at most `SL` atoms without and `SF` atoms with state, and with multipliers where `MUL` holds. Its values share containers,
/// and it is legal.
pub fn configure<
    T: AtomTemplate,
    const DEPTH: usize,
    const SL: usize,
    const SF: usize,
    const MUL: bool,
>(
    alloc: Global,
    codelets: &Codelets,
    atoms: &Atoms<T>,
    plan: &HandPlan,
) -> Result<Config<T>, Memory>
    requires depth { (1 ≤ DEPTH) × (DEPTH ≤ 65535) }
    requires stateless { (1 ≤ SL) × (SL ≤ 65535) }
    requires stateful { (1 ≤ SF) × (SF ≤ 65535) }
    requires accepted { IsPlan DEPTH SL SF codelets.now.list plan.now }
    requires atoms { AreAtomsOf codelets.now (map (atom_form T.trees_of) atoms.now.list) }
    requires fit { first_outside T.fits MUL codelets.now ≡ None }
    requires fields { are_names codelets.now.flat.fields ≡ true }
    requires arrays { are_names (map name_of_array codelets.now.flat.arrays) ≡ true }
    ensures parts { IfOk result (λ c. c ≡ placed codelets.now DEPTH (map (atom_form T.trees_of) atoms.now.list) plan.now) }
    ensures unshared { OnOk result (LegalFor (shape_with T.fits T.CONST_BITS DEPTH SL SF MUL) (compiled_parts codelets.now DEPTH (map (atom_form T.trees_of) atoms.now.list) plan.now)) }
    ensures legal { OnOk result (LegalFor (shape_with T.fits T.CONST_BITS DEPTH SL SF MUL) (placed codelets.now DEPTH (map (atom_form T.trees_of) atoms.now.list) plan.now)) }
{
    let stages = copied(alloc, &plan.places)?;
    let config = configured::<T, DEPTH, SL, SF, MUL>(alloc, codelets, atoms, &stages)?;
    Ok(share::<T, DEPTH, SL, SF, MUL>(alloc, config)?)
}
