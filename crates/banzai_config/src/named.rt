ghost use Rattle.std.specs.Prelude.{◌≡◌, [], ◌∷◌, ◌++◌, IfOk, OnOk, map};
ghost use Rattle.std.specs.List.{flat_map};
ghost use Rattle.std.specs.Option.{option_to_list};
ghost use Rattle.atom_traits.specs.Form.{form, forms};
ghost use Rattle.atom_traits.specs.Operation.{ports_of};
ghost use Rattle.banzai_config.specs.Named.{arrays_of, guard_reads, leaf_reads, port_reads, reads_of, slot_array, slot_reads, slot_targets, source_reads, targets_of, tree_reads, trees_reads};
ghost use Rattle.banzai_config.specs.Parts.{Stateless, Stateful, atom_form};

use crate::parts::{OpAtom, PartSlot, TreeAtom};
use atom_traits::{Guard, Leaf, Port, Source, StatelessOp, Tree, Trees};
use dom_words::Memory;
use std::alloc::Global;

/// What an atom names: the arrays of its slots, and the containers that it reads and writes.
#[derive(Drop)]
pub(crate) struct AtomNames {
    pub(crate) arrays: Vec<u32>,
    pub(crate) reads: Vec<u32>,
    pub(crate) targets: Vec<u32>,
}

/// What an atom without state names.
pub(crate) fn op_names(alloc: Global, atom: &OpAtom) -> Result<AtomNames, Memory>
    ensures arrays { IfOk result (λ n. n.arrays.items ≡ arrays_of (Stateless atom.now)) }
    ensures reads { IfOk result (λ n. n.reads.items ≡ reads_of (Stateless atom.now)) }
    ensures targets { IfOk result (λ n. n.targets.items ≡ targets_of (Stateless atom.now)) }
{
    let mut reads = Vec::new(alloc);
    add_op_reads(&atom.op, &mut reads)?;
    let mut targets = Vec::new(alloc);
    add(atom.to, &mut targets)?;
    Ok(AtomNames {
        arrays: Vec::new(alloc),
        reads,
        targets,
    })
}

/// What an atom with state names.
pub(crate) fn tree_names(alloc: Global, atom: &TreeAtom) -> Result<AtomNames, Memory>
    ensures arrays { IfOk result (λ n. n.arrays.items ≡ arrays_of (Stateful (atom_form atom.now))) }
    ensures reads { IfOk result (λ n. n.reads.items ≡ reads_of (Stateful (atom_form atom.now))) }
    ensures targets { IfOk result (λ n. n.targets.items ≡ targets_of (Stateful (atom_form atom.now))) }
{
    let slots = atom.slots.as_slice();
    let mut arrays = Vec::new(alloc);
    add_slot_arrays(slots, &mut arrays)?;
    let mut reads = Vec::new(alloc);
    add_slot_reads(slots, &mut reads)?;
    add_trees_reads(&atom.trees, &mut reads)?;
    let mut targets = Vec::new(alloc);
    add_slot_targets(slots, &mut targets)?;
    Ok(AtomNames {
        arrays,
        reads,
        targets,
    })
}

fn add(number: u32, numbers: &mut Vec<u32>) -> Result<(), Memory>
    ensures { OnOk result (numbers.new.items ≡ numbers.old.items ++ number ∷ []) }
{
    numbers.push(number).map_err(|_| Memory)?;
    Ok(())
}

fn add_if(number: Option<u32>, numbers: &mut Vec<u32>) -> Result<(), Memory>
    ensures { OnOk result (numbers.new.items ≡ numbers.old.items ++ option_to_list number) }
{
    match number {
        Some(number) => add(number, numbers),
        None => Ok(()),
    }
}

fn add_port(port: Port, reads: &mut Vec<u32>) -> Result<(), Memory>
    ensures { OnOk result (reads.new.items ≡ reads.old.items ++ port_reads port) }
{
    match port {
        Port::Const(_) => Ok(()),
        Port::Container(container) => add(container, reads),
    }
}

fn add_ports(ports: &[Port], reads: &mut Vec<u32>) -> Result<(), Memory>
    ensures { OnOk result (reads.new.items ≡ reads.old.items ++ flat_map port_reads ports.now) }
{
    for port in ports {
        add_port(*port, reads)?;
    }
    Ok(())
}

fn add_op_reads(op: &StatelessOp, reads: &mut Vec<u32>) -> Result<(), Memory>
    ensures { OnOk result (reads.new.items ≡ reads.old.items ++ flat_map port_reads (ports_of op.now)) }
{
    match op {
        StatelessOp::Un { a, .. } => add_port(*a, reads),
        StatelessOp::Bin { a, b, .. } => {
            add_port(*a, reads)?;
            add_port(*b, reads)
        }
        StatelessOp::Cond { c, a, b } => {
            add_port(*c, reads)?;
            add_port(*a, reads)?;
            add_port(*b, reads)
        }
        StatelessOp::Hash { args, .. } => add_ports(args.as_slice(), reads),
    }
}

fn add_slot_arrays(slots: &[PartSlot], arrays: &mut Vec<u32>) -> Result<(), Memory>
    ensures { OnOk result (arrays.new.items ≡ arrays.old.items ++ map slot_array slots.now) }
{
    for slot in slots {
        add(slot.array, arrays)?;
    }
    Ok(())
}

fn add_slot_reads(slots: &[PartSlot], reads: &mut Vec<u32>) -> Result<(), Memory>
    ensures { OnOk result (reads.new.items ≡ reads.old.items ++ flat_map slot_reads slots.now) }
{
    for slot in slots {
        add_port(slot.index, reads)?;
    }
    Ok(())
}

fn add_slot_targets(slots: &[PartSlot], targets: &mut Vec<u32>) -> Result<(), Memory>
    ensures { OnOk result (targets.new.items ≡ targets.old.items ++ flat_map slot_targets slots.now) }
{
    for slot in slots {
        add_if(slot.old, targets)?;
        add_if(slot.new, targets)?;
    }
    Ok(())
}

fn add_source(source: Source, reads: &mut Vec<u32>) -> Result<(), Memory>
    ensures { OnOk result (reads.new.items ≡ reads.old.items ++ source_reads source) }
{
    match source {
        Source::Const(_) => Ok(()),
        Source::Container(container) => add(container, reads),
        Source::State(_) => Ok(()),
    }
}

fn add_guard(guard: Guard, reads: &mut Vec<u32>) -> Result<(), Memory>
    ensures { OnOk result (reads.new.items ≡ reads.old.items ++ guard_reads guard) }
{
    add_source(guard.left, reads)?;
    add_source(guard.right, reads)
}

fn add_leaf(leaf: Leaf, reads: &mut Vec<u32>) -> Result<(), Memory>
    ensures { OnOk result (reads.new.items ≡ reads.old.items ++ leaf_reads leaf) }
{
    match leaf {
        Leaf::Keep => Ok(()),
        Leaf::Put(port) => add_port(port, reads),
        Leaf::Add(port) => add_port(port, reads),
        Leaf::Sub(port) => add_port(port, reads),
    }
}

fn add_tree_reads(tree: &Tree, reads: &mut Vec<u32>) -> Result<(), Memory>
    ensures { OnOk result (reads.new.items ≡ reads.old.items ++ tree_reads (form tree.now)) }
{
    match tree {
        Tree::Leaf(leaf) => add_leaf(*leaf, reads),
        Tree::Fork { guard, yes, no } => {
            add_guard(*guard, reads)?;
            add_tree_reads(yes, reads)?;
            add_tree_reads(no, reads)
        }
    }
}

fn add_trees_reads(trees: &Trees, reads: &mut Vec<u32>) -> Result<(), Memory>
    ensures { OnOk result (reads.new.items ≡ reads.old.items ++ trees_reads (forms trees.now)) }
{
    add_tree_reads(&trees.first, reads)?;
    match &trees.second {
        None => Ok(()),
        Some(second) => add_tree_reads(second, reads),
    }
}
