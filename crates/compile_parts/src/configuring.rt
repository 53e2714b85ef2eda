ghost use Rattle.std.specs.Prelude.{◌≡◌, ◌≤◌, IfOk, None, OnOk, map, true};
ghost use Rattle.stage_plan.specs.Schedule.{IsPlan};
ghost use Rattle.atom_match.specs.Atoms.{atom_form, first_outside};
ghost use Rattle.banzai_config.specs.Checked.{shape_with};
ghost use Rattle.banzai_config.specs.Legal.{LegalFor, are_names, name_of_array};
ghost use Rattle.compile_law.specs.Compiled.{AreAtomsOf, compiled_parts};

use crate::gathering::gathered;
use atom_match::Atoms;
use atom_traits::AtomTemplate;
use banzai_config::{Config, ConfigFault};
use codelets::Codelets;
use compile_law::laws::compiled_is_legal;
use dom_words::Memory;
use stage_plan::Stages;
use std::alloc::Global;

/// The configuration of codelets whose atoms have stages of a pipeline with `DEPTH` stages of at most `SL` atoms without and
/// `SF` atoms with state, and with multipliers where `MUL` holds: it is legal, whatever the plan.
pub fn configured<
    T: AtomTemplate,
    const DEPTH: usize,
    const SL: usize,
    const SF: usize,
    const MUL: bool,
>(
    alloc: Global,
    codelets: &Codelets,
    atoms: &Atoms<T>,
    stages: &Stages,
) -> Result<Config<T>, Memory>
    requires depth { (1 ≤ DEPTH) × (DEPTH ≤ 65535) }
    requires stateless { (1 ≤ SL) × (SL ≤ 65535) }
    requires stateful { (1 ≤ SF) × (SF ≤ 65535) }
    requires atoms { AreAtomsOf codelets.now (map (atom_form T.trees_of) atoms.now.list) }
    requires fit { first_outside T.fits MUL codelets.now ≡ None }
    requires plan { IsPlan DEPTH SL SF codelets.now.list stages.now }
    requires fields { are_names codelets.now.flat.fields ≡ true }
    requires arrays { are_names (map name_of_array codelets.now.flat.arrays) ≡ true }
    ensures parts { IfOk result (λ c. c ≡ compiled_parts codelets.now DEPTH (map (atom_form T.trees_of) atoms.now.list) stages.now) }
    ensures legal { OnOk result (LegalFor (shape_with T.fits T.CONST_BITS DEPTH SL SF MUL) (compiled_parts codelets.now DEPTH (map (atom_form T.trees_of) atoms.now.list) stages.now)) }
{
    compiled_is_legal::<T>(codelets);
    let parts = gathered::<T>(alloc, codelets, atoms, stages, DEPTH as u32)?;
    match Config::<T>::checked::<DEPTH, SL, SF, MUL>(alloc, parts) {
        Ok(config) => Ok(config),
        Err(ConfigFault::Memory) => Err(Memory),
        Err(ConfigFault::Refused { .. }) => unreachable!(),
    }
}
