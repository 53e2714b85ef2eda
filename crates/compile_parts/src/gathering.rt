ghost use Rattle.std.specs.Prelude.{◌≡◌, ◌≤◌, IfOk, length, map};
ghost use Rattle.atom_match.specs.Atoms.{atom_form};
ghost use Rattle.banzai_config.specs.Parts.{parts_form, stage_form};
ghost use Rattle.compile_law.specs.Compiled.{AreAtomsOf, compiled_parts, stage_at, staged, stages_from};

use crate::adding::add_atom;
use atom_match::{Atoms, ports};
use atom_traits::AtomTemplate;
use banzai_config::{Parts, StageList, StageParts, Version, copy_arrays, copy_names};
use codelets::Codelets;
use dom_words::{Memory, Seq};
use stage_plan::Stages;
use std::alloc::Global;

// The atoms at one stage, in the order of the codelets.
fn stage_parts<T: AtomTemplate>(
    alloc: Global,
    codelets: &Codelets,
    atoms: &Atoms<T>,
    stages: &Stages,
    stage: u32,
) -> Result<StageParts, Memory>
    requires atoms { AreAtomsOf codelets.now (map (atom_form T.trees_of) atoms.now.list) }
    requires places { length stages.now ≡ length codelets.now.list }
    ensures { IfOk result (λ s. stage_form s ≡ stage_at (staged codelets.now (map (atom_form T.trees_of) atoms.now.list) stages.now) stage) }
{
    let mut parts = StageParts {
        stateless: Seq::new(alloc),
        stateful: Seq::new(alloc),
    };
    let list = codelets.list();
    'codelets: for k in 0..list.len() {
        if stages.stage(k) == stage {
            add_atom::<T>(alloc, &mut parts, codelets, &list[k], atoms.atom(k))?;
        }
    }
    Ok(parts)
}

// The stages 1 to `depth`.
fn stage_list<T: AtomTemplate>(
    alloc: Global,
    codelets: &Codelets,
    atoms: &Atoms<T>,
    stages: &Stages,
    depth: u32,
) -> Result<StageList, Memory>
    requires depth { depth ≤ 65535 }
    requires atoms { AreAtomsOf codelets.now (map (atom_form T.trees_of) atoms.now.list) }
    requires places { length stages.now ≡ length codelets.now.list }
    ensures { IfOk result (λ list. map stage_form list ≡ stages_from (staged codelets.now (map (atom_form T.trees_of) atoms.now.list) stages.now) 0 depth) }
{
    let mut list = Seq::new(alloc);
    'stages: for k in 0..depth {
        let stage = stage_parts::<T>(alloc, codelets, atoms, stages, k + 1)?;
        list.push(stage)?;
    }
    Ok(list)
}

/// The parts of a configuration of `depth` stages: the atoms at their places, and the containers and outputs of the
/// codelets.
pub(crate) fn gathered<T: AtomTemplate>(
    alloc: Global,
    codelets: &Codelets,
    atoms: &Atoms<T>,
    stages: &Stages,
    depth: u32,
) -> Result<Parts, Memory>
    requires depth { depth ≤ 65535 }
    requires atoms { AreAtomsOf codelets.now (map (atom_form T.trees_of) atoms.now.list) }
    requires places { length stages.now ≡ length codelets.now.list }
    ensures { IfOk result (λ parts. parts_form parts ≡ compiled_parts codelets.now depth (map (atom_form T.trees_of) atoms.now.list) stages.now) }
{
    let flat = codelets.flat();
    let fields = copy_names(alloc, &flat.fields)?;
    let arrays = copy_arrays(alloc, flat.arrays.as_slice())?;
    let stages = stage_list::<T>(alloc, codelets, atoms, stages, depth)?;
    let outputs = ports(alloc, codelets, codelets.outputs().as_slice())?;
    Ok(Parts {
        version: Version::One,
        fields,
        arrays,
        containers: codelets.containers(),
        stages,
        outputs,
    })
}
