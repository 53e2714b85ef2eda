ghost use Rattle.std.specs.Prelude.{◌≡◌, IfOk, length, map, true};
ghost use Rattle.std.specs.List.{list_all};
ghost use Rattle.atom_traits.specs.Form.{forms};
ghost use Rattle.banzai_config.specs.Checked.{stage_fits};
ghost use Rattle.banzai_config.specs.Fitted.{fitted_form};
ghost use Rattle.banzai_config.specs.Parts.{atom_form, fit_form, stage_form};

use crate::config::FitStage;
use crate::copy::{copy_ops, copy_slots};
use crate::parts::{FitAtom, FitAtoms, StageParts, TreeAtom};
use atom_traits::AtomTemplate;
use dom_words::{Memory, Seq};
use std::alloc::Global;

/// Fits all atoms of stages whose trees fit.
pub(crate) fn fit_stages<T: AtomTemplate>(
    alloc: Global,
    stages: &[StageParts],
) -> Result<Seq<FitStage<T>>, Memory>
    requires { list_all (stage_fits T.fits) (map stage_form stages.now) ≡ true }
    ensures stages { IfOk result (λ fitted. map (fitted_form T.trees_of) fitted ≡ map stage_form stages.now) }
    ensures size { IfOk result (λ fitted. length fitted ≡ length stages.now) }
{
    let mut fitted = Seq::new(alloc);
    for k in 0..stages.len() {
        let stage = fit_stage::<T>(alloc, &stages[k])?;
        fitted.push(stage)?;
    }
    Ok(fitted)
}

fn fit_stage<T: AtomTemplate>(alloc: Global, stage: &StageParts) -> Result<FitStage<T>, Memory>
    requires { stage_fits T.fits (stage_form stage.now) ≡ true }
    ensures { IfOk result (λ fitted. fitted_form T.trees_of fitted ≡ stage_form stage.now) }
{
    let stateless = copy_ops(alloc, stage.stateless.as_slice())?;
    let stateful = fit_atoms::<T>(alloc, stage.stateful.as_slice())?;
    Ok(FitStage {
        stateless,
        stateful,
    })
}

fn fit_atoms<T: AtomTemplate>(alloc: Global, atoms: &[TreeAtom]) -> Result<FitAtoms<T>, Memory>
    requires { list_all (λ a. T.fits a.trees) (map atom_form atoms.now) ≡ true }
    ensures { IfOk result (λ fitted. map (fit_form T.trees_of) fitted ≡ map atom_form atoms.now) }
{
    let mut fitted = Seq::new(alloc);
    for k in 0..atoms.len() {
        let atom = fit_atom::<T>(alloc, &atoms[k])?;
        fitted.push(atom)?;
    }
    Ok(fitted)
}

fn fit_atom<T: AtomTemplate>(alloc: Global, atom: &TreeAtom) -> Result<FitAtom<T::Params>, Memory>
    requires { T.fits (forms atom.now.trees) ≡ true }
    ensures { IfOk result (λ fitted. fit_form T.trees_of fitted ≡ atom_form atom.now) }
{
    let slots = copy_slots(alloc, atom.slots.as_slice())?;
    match T::fit(alloc, &atom.trees)? {
        Some(params) => Ok(FitAtom { slots, params }),
        None => unreachable!(),
    }
}
