ghost use Rattle.std.specs.Prelude.{◌≡◌, ◌+◌, ◌-◌, ◌^◌, ◌++◌, ◌∷◌, ◌<◌, ◌≤◌, List, [], IfOk, IfSome, OnOk, None, length, map};
ghost use Rattle.banzai_config.specs.declared.parts.OpAtom.{OpAtom};
ghost use Rattle.banzai_config.specs.Judged.{HasRoom, shape_in, sizes_in};
ghost use Rattle.banzai_config.specs.Parts.{StageForm, atoms_of, stage_form};
ghost use Rattle.banzai_config.specs.Walked.{IsEnded, IsSeen, first_in, first_of, op_atoms, tree_atoms};

use crate::fault::ConfigKind;
use crate::judge::{Frame, Limits, Seen, judge_op, judge_trees};
use crate::parts::{OpAtom, StageParts, TreeAtom};
use atom_traits::AtomTemplate;
use dom_words::Memory;
use std::alloc::Global;

/// An atom that breaks a rule, by its place in its stage, from 0.
#[derive(Clone, Copy)]
pub(crate) struct BrokenAtom {
    pub(crate) kind: ConfigKind,
    pub(crate) atom: usize,
}

/// An atom that breaks a rule, by its stage and its place there, both from 1.
#[derive(Clone, Copy)]
pub(crate) struct BrokenPlace {
    pub(crate) kind: ConfigKind,
    pub(crate) stage: u32,
    pub(crate) atom: u32,
}

// The first atom without state of a stage that breaks a rule.
fn walk_ops<T: AtomTemplate>(
    alloc: Global,
    limits: Limits,
    frame: Frame,
    atoms: &[OpAtom],
    seen: &mut Seen,
) -> Result<Option<BrokenAtom>, Memory>
    requires { HasRoom frame seen.old }
    ensures room { HasRoom frame seen.new }
    ensures first { IfOk result (λ b. (stages : List StageForm) → IsSeen stages [] seen.old → b ≡ first_in (shape_in T.fits T.CONST_BITS limits) (sizes_in frame) stages [] (op_atoms atoms.now)) }
    ensures seen { IfOk result (λ b. b ≡ None → (stages : List StageForm) → IsSeen stages [] seen.old → IsSeen stages (op_atoms atoms.now) seen.new) }
    ensures place { IfOk result (λ b. IfSome b (λ b. b.atom ≤ limits.stateless)) }
    ensures few { IfOk result (λ b. b ≡ None → length atoms.now ≤ limits.stateless) }
{
    for place in 0..atoms.len() {
        match judge_op(alloc, limits, frame, place, &atoms[place], seen)? {
            Some(kind) => return Ok(Some(BrokenAtom { kind, atom: place })),
            None => {}
        }
    }
    Ok(None)
}

// The first atom with state of a stage that breaks a rule; `first` atoms without state stand before them.
fn walk_trees<T: AtomTemplate>(
    alloc: Global,
    limits: Limits,
    frame: Frame,
    first: usize,
    atoms: &[TreeAtom],
    seen: &mut Seen,
) -> Result<Option<BrokenAtom>, Memory>
    requires room { HasRoom frame seen.old }
    requires small { first + limits.stateful < 2 ^ 32 }
    ensures room { HasRoom frame seen.new }
    ensures first { IfOk result (λ b. (stages : List StageForm) (ops : List OpAtom) → length ops ≡ first → IsSeen stages (op_atoms ops) seen.old → b ≡ first_in (shape_in T.fits T.CONST_BITS limits) (sizes_in frame) stages (op_atoms ops) (tree_atoms atoms.now)) }
    ensures seen { IfOk result (λ b. b ≡ None → (stages : List StageForm) (ops : List OpAtom) → length ops ≡ first → IsSeen stages (op_atoms ops) seen.old → IsSeen stages (op_atoms ops ++ tree_atoms atoms.now) seen.new) }
    ensures place { IfOk result (λ b. IfSome b (λ b. b.atom ≤ first + limits.stateful)) }
{
    for place in 0..atoms.len() {
        match judge_trees::<T>(alloc, limits, frame, place, &atoms[place], seen)? {
            Some(kind) => {
                return Ok(Some(BrokenAtom {
                    kind,
                    atom: first + place,
                }));
            }
            None => {}
        }
    }
    Ok(None)
}

// What the atoms of a stage write is known from the next stage on.
fn end_stage(frame: Frame, seen: &mut Seen) -> Result<(), Memory>
    requires { HasRoom frame seen.old }
    ensures room { HasRoom frame seen.new }
    ensures ended { OnOk result (IsEnded seen.old seen.new) }
{
    seen.known.add_all(seen.written.as_slice())?;
    seen.written.clear();
    seen.read.clear();
    Ok(())
}

// The first atom of a stage that breaks a rule.
fn walk_atoms<T: AtomTemplate>(
    alloc: Global,
    limits: Limits,
    frame: Frame,
    ops: &[OpAtom],
    trees: &[TreeAtom],
    seen: &mut Seen,
) -> Result<Option<BrokenAtom>, Memory>
    requires room { HasRoom frame seen.old }
    requires small { limits.stateless + limits.stateful < 2 ^ 32 - 1 }
    ensures room { HasRoom frame seen.new }
    ensures first { IfOk result (λ b. (stages : List StageForm) → IsSeen stages [] seen.old → b ≡ first_in (shape_in T.fits T.CONST_BITS limits) (sizes_in frame) stages [] (op_atoms ops.now ++ tree_atoms trees.now)) }
    ensures seen { IfOk result (λ b. b ≡ None → (stages : List StageForm) → IsSeen stages [] seen.old → IsSeen stages (op_atoms ops.now ++ tree_atoms trees.now) seen.new) }
    ensures place { IfOk result (λ b. IfSome b (λ b. b.atom ≤ limits.stateless + limits.stateful)) }
{
    match walk_ops::<T>(alloc, limits, frame, ops, seen)? {
        Some(op) => return Ok(Some(op)),
        None => {}
    }
    let found = walk_trees::<T>(alloc, limits, frame, ops.len(), trees, seen)?;
    Ok(found)
}

// The first atom of a stage that breaks a rule. Where there is none, the stage is noted.
fn walk_stage<T: AtomTemplate>(
    alloc: Global,
    limits: Limits,
    frame: Frame,
    stage: &StageParts,
    seen: &mut Seen,
) -> Result<Option<BrokenAtom>, Memory>
    requires room { HasRoom frame seen.old }
    requires small { limits.stateless + limits.stateful < 2 ^ 32 - 1 }
    ensures room { HasRoom frame seen.new }
    ensures first { IfOk result (λ b. (stages : List StageForm) → IsSeen stages [] seen.old → b ≡ first_in (shape_in T.fits T.CONST_BITS limits) (sizes_in frame) stages [] (atoms_of (stage_form stage.now))) }
    ensures seen { IfOk result (λ b. b ≡ None → (stages : List StageForm) → IsSeen stages [] seen.old → IsSeen (stages ++ stage_form stage.now ∷ []) [] seen.new) }
    ensures place { IfOk result (λ b. IfSome b (λ b. b.atom ≤ limits.stateless + limits.stateful)) }
{
    let ops = stage.stateless.as_slice();
    let trees = stage.stateful.as_slice();
    match walk_atoms::<T>(alloc, limits, frame, ops, trees, seen)? {
        Some(broken) => return Ok(Some(broken)),
        None => {}
    }
    end_stage(frame, seen)?;
    Ok(None)
}

/// The first atom of all stages that breaks a rule.
pub(crate) fn walk_stages<T: AtomTemplate>(
    alloc: Global,
    limits: Limits,
    frame: Frame,
    stages: &[StageParts],
    seen: &mut Seen,
) -> Result<Option<BrokenPlace>, Memory>
    requires room { HasRoom frame seen.old }
    requires none { IsSeen [] [] seen.old }
    requires few { length stages.now ≤ 65535 }
    requires small { limits.stateless + limits.stateful < 2 ^ 32 - 1 }
    ensures first { IfOk result (λ b. b ≡ first_of (shape_in T.fits T.CONST_BITS limits) (sizes_in frame) [] (map stage_form stages.now)) }
    ensures seen { IfOk result (λ b. b ≡ None → IsSeen (map stage_form stages.now) [] seen.new) }
{
    for k in 0..stages.len() {
        match walk_stage::<T>(alloc, limits, frame, &stages[k], seen)? {
            Some(broken) => {
                return Ok(Some(BrokenPlace {
                    kind: broken.kind,
                    stage: k as u32 + 1,
                    atom: broken.atom as u32 + 1,
                }));
            }
            None => {}
        }
    }
    Ok(None)
}
