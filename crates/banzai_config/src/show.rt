ghost use Rattle.std.specs.Prelude.{◌≡◌, IfOk, map};
ghost use Rattle.banzai_config.specs.Fitted.{fitted_form};
ghost use Rattle.banzai_config.specs.Parts.{atom_form, fit_form, stage_form};

use crate::config::FitStage;
use crate::copy::{copy_ops, copy_slots};
use crate::parts::{FitAtom, StageList, StageParts, TreeAtom, TreeAtoms};
use atom_traits::AtomTemplate;
use dom_words::{Memory, Seq};
use std::alloc::Global;

/// The parts of fitted stages.
pub(crate) fn show_stages<T: AtomTemplate>(
    alloc: Global,
    stages: &[FitStage<T>],
) -> Result<StageList, Memory>
    ensures { IfOk result (λ shown. map stage_form shown ≡ map (fitted_form T.trees_of) stages.now) }
{
    let mut shown = Seq::new(alloc);
    for stage in stages {
        let parts = show_stage(alloc, stage)?;
        shown.push(parts)?;
    }
    Ok(shown)
}

fn show_stage<T: AtomTemplate>(alloc: Global, stage: &FitStage<T>) -> Result<StageParts, Memory>
    ensures { IfOk result (λ shown. stage_form shown ≡ fitted_form T.trees_of stage.now) }
{
    let stateless = copy_ops(alloc, stage.stateless.as_slice())?;
    let stateful = show_atoms::<T>(alloc, stage.stateful.as_slice())?;
    Ok(StageParts {
        stateless,
        stateful,
    })
}

fn show_atoms<T: AtomTemplate>(
    alloc: Global,
    atoms: &[FitAtom<T::Params>],
) -> Result<TreeAtoms, Memory>
    ensures { IfOk result (λ shown. map atom_form shown ≡ map (fit_form T.trees_of) atoms.now) }
{
    let mut shown = Seq::new(alloc);
    for atom in atoms {
        let parts = show_atom::<T>(alloc, atom)?;
        shown.push(parts)?;
    }
    Ok(shown)
}

fn show_atom<T: AtomTemplate>(alloc: Global, atom: &FitAtom<T::Params>) -> Result<TreeAtom, Memory>
    ensures { IfOk result (λ shown. atom_form shown ≡ fit_form T.trees_of atom.now) }
{
    let slots = copy_slots(alloc, atom.slots.as_slice())?;
    let trees = T::shown(alloc, &atom.params)?;
    Ok(TreeAtom { slots, trees })
}
