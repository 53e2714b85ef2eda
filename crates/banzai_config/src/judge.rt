ghost use Rattle.std.specs.Prelude.{◌≡◌, ◌<◌, ◌&&◌, [], IfOk, None, length, true};
ghost use Rattle.atom_traits.specs.Form.{count_of, form, forms};
ghost use Rattle.atom_traits.specs.Operation.{needs_multiplier, operation_has_args};
ghost use Rattle.atom_traits.specs.Tests.{any_port, name_states, leaf_passes, source_states, tree_passes};
ghost use Rattle.banzai_config.specs.Legal.{are_below, atom_tests, is_modulus_small, may_write};
ghost use Rattle.banzai_config.specs.Judged.{HasRoom, IsNoted, broken, name_tests, names_there, pattern_tests, seen_before, shape_in, sizes_in};
ghost use Rattle.banzai_config.specs.Named.{arrays_of, reads_of, targets_of};
ghost use Rattle.banzai_config.specs.Parts.{Stateless, Stateful, atom_form};

use crate::fault::ConfigKind;
use crate::named::{AtomNames, op_names, tree_names};
use crate::numbers::NumberSet;
use crate::parts::{OpAtom, TreeAtom, Version};
use atom_traits::{AtomTemplate, Leaf, Source, StatelessOp, Tree, Trees, constants_within};
use dom_words::{BinOp, Memory};
use std::alloc::Global;

/// What a configuration has: its version, and how many fields, arrays and containers.
#[derive(Clone, Copy)]
pub(crate) struct Frame {
    pub(crate) version: Version,
    pub(crate) fields: u32,
    pub(crate) arrays: u32,
    pub(crate) containers: u32,
}

/// What a target takes: the number of stages, the atoms of each kind in a stage, and whether it has multipliers.
#[derive(Clone, Copy)]
pub(crate) struct Limits {
    pub(crate) depth: usize,
    pub(crate) stateless: usize,
    pub(crate) stateful: usize,
    pub(crate) multiplies: bool,
}

/// What the atoms so far name: the arrays of their slots, the containers that earlier stages write, and those that the
/// stage's earlier atoms write and read.
#[derive(Drop)]
pub(crate) struct Seen {
    pub(crate) held: NumberSet,
    pub(crate) known: NumberSet,
    pub(crate) written: NumberSet,
    pub(crate) read: NumberSet,
}

/// The first rule that an atom without state breaks, where `place` atoms of its kind stand before it in its stage. Where it
/// breaks none, what it names is noted.
pub(crate) fn judge_op(
    alloc: Global,
    limits: Limits,
    frame: Frame,
    place: usize,
    atom: &OpAtom,
    seen: &mut Seen,
) -> Result<Option<ConfigKind>, Memory>
    requires { HasRoom frame seen.old }
    ensures room { HasRoom frame seen.new }
    ensures kind { IfOk result (λ k. k ≡ broken (atom_tests (shape_in (λ _. true) 0 limits) (sizes_in frame) (seen_before place seen.old) (Stateless atom.now))) }
    ensures noted { IfOk result (λ k. k ≡ None → IsNoted seen.old seen.new (arrays_of (Stateless atom.now)) (reads_of (Stateless atom.now)) (targets_of (Stateless atom.now))) }
    ensures placed { IfOk result (λ k. k ≡ None → place < limits.stateless) }
{
    if place >= limits.stateless {
        return Ok(Some(ConfigKind::Width));
    }
    let names = op_names(alloc, atom)?;
    if !are_there(frame, &names) || !has_args(&atom.op) || !has_small_modulus(&atom.op) {
        return Ok(Some(ConfigKind::BadNumber));
    }
    if !limits.multiplies && is_multiplication(&atom.op) {
        return Ok(Some(ConfigKind::MulOperator));
    }
    judge_names(frame, &names, seen)
}

/// The first rule that an atom with state breaks, where `place` atoms of its kind stand before it in its stage. Where it
/// breaks none, what it names is noted.
pub(crate) fn judge_trees<T: AtomTemplate>(
    alloc: Global,
    limits: Limits,
    frame: Frame,
    place: usize,
    atom: &TreeAtom,
    seen: &mut Seen,
) -> Result<Option<ConfigKind>, Memory>
    requires { HasRoom frame seen.old }
    ensures room { HasRoom frame seen.new }
    ensures kind { IfOk result (λ k. k ≡ broken (atom_tests (shape_in T.fits T.CONST_BITS limits) (sizes_in frame) (seen_before place seen.old) (Stateful (atom_form atom.now)))) }
    ensures noted { IfOk result (λ k. k ≡ None → IsNoted seen.old seen.new (arrays_of (Stateful (atom_form atom.now))) (reads_of (Stateful (atom_form atom.now))) (targets_of (Stateful (atom_form atom.now)))) }
    ensures placed { IfOk result (λ k. k ≡ None → place < limits.stateful) }
{
    if place >= limits.stateful {
        return Ok(Some(ConfigKind::Width));
    }
    let names = tree_names(alloc, atom)?;
    if !is_tree_there(frame, &names, atom) {
        return Ok(Some(ConfigKind::BadNumber));
    }
    match judge_pattern::<T>(alloc, atom)? {
        Some(kind) => return Ok(Some(kind)),
        None => {}
    }
    judge_names(frame, &names, seen)
}

fn is_tree_there(frame: Frame, names: &AtomNames, atom: &TreeAtom) -> bool
    ensures { result ≡ (names_there frame names.now && name_states (length atom.now.slots) (forms atom.now.trees)) }
{
    are_there(frame, names) && states_are_there(&atom.trees, atom.slots.len())
}

// The first broken rule on what an atom's trees do.
fn judge_pattern<T: AtomTemplate>(
    alloc: Global,
    atom: &TreeAtom,
) -> Result<Option<ConfigKind>, Memory>
    ensures { IfOk result (λ k. k ≡ broken (pattern_tests T.fits T.CONST_BITS (atom_form atom.now))) }
{
    if !constants_within(&atom.trees, T::CONST_BITS) {
        return Ok(Some(ConfigKind::WideConstant));
    }
    if tree_count(&atom.trees) != atom.slots.len() || T::fit(alloc, &atom.trees)?.is_none() {
        return Ok(Some(ConfigKind::Pattern));
    }
    Ok(None)
}

// The first broken rule on what an atom names. Where there is none, it is noted.
fn judge_names(
    frame: Frame,
    names: &AtomNames,
    seen: &mut Seen,
) -> Result<Option<ConfigKind>, Memory>
    requires room { HasRoom frame seen.old }
    requires there { names_there frame names.now ≡ true }
    ensures room { HasRoom frame seen.new }
    ensures kind { IfOk result (λ k. k ≡ broken (name_tests (sizes_in frame) (seen_before 0 seen.old) names.now.arrays.items names.now.reads.items names.now.targets.items)) }
    ensures noted { IfOk result (λ k. k ≡ None → IsNoted seen.old seen.new names.now.arrays.items names.now.reads.items names.now.targets.items) }
{
    if !seen.held.add_new(&names.arrays)? {
        return Ok(Some(ConfigKind::ArrayTwice));
    }
    if !seen.known.are_known(frame.fields, &names.reads) {
        return Ok(Some(ConfigKind::ReadBeforeWrite));
    }
    if !writes_may_stand(frame, names, seen)? {
        return Ok(Some(ConfigKind::ContainerTwice));
    }
    Ok(None)
}

// Whether an atom may write what it writes. Where it may, its containers are noted.
fn writes_may_stand(frame: Frame, names: &AtomNames, seen: &mut Seen) -> Result<bool, Memory>
    requires room { HasRoom frame seen.old }
    requires there { names_there frame names.now ≡ true }
    ensures room { HasRoom frame seen.new }
    ensures may { IfOk result (λ may. may ≡ may_write frame.version frame.fields seen.old.known.numbers seen.old.written.numbers seen.old.read.numbers names.now.reads.items names.now.targets.items) }
    ensures noted { IfOk result (λ may. may ≡ true → IsNoted seen.old seen.new [] names.now.reads.items names.now.targets.items) }
{
    let apart = seen.written.has_none(&names.reads);
    seen.read.add_all(&names.reads)?;
    let free = match frame.version {
        Version::One => seen.known.has_no_known(frame.fields, &names.targets),
        Version::Two => apart && seen.read.has_none(&names.targets),
    };
    Ok(free && seen.written.add_new(&names.targets)?)
}

// Whether all containers and arrays that an atom names are there.
fn are_there(frame: Frame, names: &AtomNames) -> bool
    ensures { result ≡ names_there frame names.now }
{
    are_all_below(&names.reads, frame.containers)
        && are_all_below(&names.targets, frame.containers)
        && are_all_below(&names.arrays, frame.arrays)
}

fn are_all_below(numbers: &[u32], bound: u32) -> bool
    ensures { result ≡ are_below bound numbers.now }
{
    numbers.iter().all(|number| *number < bound)
}

fn has_args(op: &StatelessOp) -> bool
    ensures { result ≡ operation_has_args op.now }
{
    match op {
        StatelessOp::Un { .. } | StatelessOp::Bin { .. } | StatelessOp::Cond { .. } => true,
        StatelessOp::Hash { unit, args, .. } => args.len() == unit.args as usize,
    }
}

fn has_small_modulus(op: &StatelessOp) -> bool
    ensures { result ≡ is_modulus_small op.now }
{
    match op {
        StatelessOp::Un { .. } | StatelessOp::Bin { .. } | StatelessOp::Cond { .. } => true,
        StatelessOp::Hash { modulus, .. } => *modulus <= 2147483647,
    }
}

fn is_multiplication(op: &StatelessOp) -> bool
    ensures { result ≡ needs_multiplier op.now }
{
    match op {
        StatelessOp::Bin { op, .. } => matches!(op, BinOp::Mul | BinOp::Div | BinOp::Rem),
        StatelessOp::Un { .. } | StatelessOp::Cond { .. } | StatelessOp::Hash { .. } => false,
    }
}

fn tree_count(trees: &Trees) -> usize
    ensures { result ≡ count_of (forms trees.now) }
{
    match &trees.second {
        None => 1,
        Some(_) => 2,
    }
}

// Whether guards name no old words but those of so many slots.
fn states_are_there(trees: &Trees, slots: usize) -> bool
    ensures { result ≡ name_states slots (forms trees.now) }
{
    match &trees.second {
        None => tree_states_are_there(&trees.first, slots),
        Some(second) => {
            tree_states_are_there(&trees.first, slots) && tree_states_are_there(second, slots)
        }
    }
}

fn tree_states_are_there(tree: &Tree, slots: usize) -> bool
    ensures { result ≡ tree_passes any_port (source_states slots) (form tree.now) }
{
    match tree {
        Tree::Leaf(leaf) => leaf_has_no_state(*leaf, slots),
        Tree::Fork { guard, yes, no } => {
            is_state_there(guard.left, slots)
                && is_state_there(guard.right, slots)
                && tree_states_are_there(yes, slots)
                && tree_states_are_there(no, slots)
        }
    }
}

fn is_state_there(source: Source, slots: usize) -> bool
    ensures { result ≡ source_states slots source }
{
    match source {
        Source::Const(_) | Source::Container(_) => true,
        Source::State(state) => (state as usize) < slots,
    }
}

// A leaf names no old word of another slot.
fn leaf_has_no_state(leaf: Leaf, slots: usize) -> bool
    ensures { result ≡ leaf_passes any_port (source_states slots) leaf }
{
    let _slots = slots;
    match leaf {
        Leaf::Keep | Leaf::Put(_) | Leaf::Add(_) | Leaf::Sub(_) => true,
    }
}
