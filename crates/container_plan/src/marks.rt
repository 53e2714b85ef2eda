ghost use Rattle.std.specs.Prelude.{◌≡◌, slice_set};
ghost use Rattle.std.specs.List.{flat_map};
ghost use Rattle.std.specs.Option.{option_to_list};
ghost use Rattle.atom_traits.specs.Form.{form, forms};
ghost use Rattle.atom_traits.specs.Operation.{ports_of};
ghost use Rattle.banzai_config.specs.Named.{guard_reads, leaf_reads, port_reads, slot_reads, slot_targets, source_reads, stage_targets, tree_reads, trees_reads};
ghost use Rattle.banzai_config.specs.Parts.{stage_form};
ghost use Rattle.banzai_config.specs.Stages.{stage_reads};
ghost use Rattle.container_plan.specs.Marks.{marked, op_reads, op_targets, tree_atom_reads, tree_atom_targets};

use atom_traits::{Guard, Leaf, Port, Source, StatelessOp, Tree, Trees};
use banzai_config::{OpAtom, PartSlot, StageParts, TreeAtom};

// A container gets a stage; one past the end is passed over.
fn mark(marks: &mut [usize], container: u32, stage: usize)
    ensures { marks.new ≡ slice_set marks.old container stage }
{
    let at = container as usize;
    if at < marks.len() {
        marks[at] = stage;
    }
}

fn mark_if(marks: &mut [usize], container: Option<u32>, stage: usize)
    ensures { marks.new ≡ marked stage (option_to_list container) marks.old }
{
    match container {
        Some(container) => mark(marks, container, stage),
        None => {}
    }
}

fn mark_port(marks: &mut [usize], port: Port, stage: usize)
    ensures { marks.new ≡ marked stage (port_reads port) marks.old }
{
    match port {
        Port::Const(_) => {}
        Port::Container(container) => mark(marks, container, stage),
    }
}

/// Marks what ports read.
pub(crate) fn mark_ports(marks: &mut [usize], ports: &[Port], stage: usize)
    ensures { marks.new ≡ marked stage (flat_map port_reads ports.now) marks.old }
{
    for port in ports {
        mark_port(marks, *port, stage);
    }
}

fn mark_operation(marks: &mut [usize], op: &StatelessOp, stage: usize)
    ensures { marks.new ≡ marked stage (flat_map port_reads (ports_of op.now)) marks.old }
{
    match op {
        StatelessOp::Un { a, .. } => mark_port(marks, *a, stage),
        StatelessOp::Bin { a, b, .. } => {
            mark_port(marks, *a, stage);
            mark_port(marks, *b, stage);
        }
        StatelessOp::Cond { c, a, b } => {
            mark_port(marks, *c, stage);
            mark_port(marks, *a, stage);
            mark_port(marks, *b, stage);
        }
        StatelessOp::Hash { args, .. } => mark_ports(marks, args.as_slice(), stage),
    }
}

fn mark_source(marks: &mut [usize], source: Source, stage: usize)
    ensures { marks.new ≡ marked stage (source_reads source) marks.old }
{
    match source {
        Source::Const(_) => {}
        Source::Container(container) => mark(marks, container, stage),
        Source::State(_) => {}
    }
}

fn mark_guard(marks: &mut [usize], guard: Guard, stage: usize)
    ensures { marks.new ≡ marked stage (guard_reads guard) marks.old }
{
    mark_source(marks, guard.left, stage);
    mark_source(marks, guard.right, stage);
}

fn mark_leaf(marks: &mut [usize], leaf: Leaf, stage: usize)
    ensures { marks.new ≡ marked stage (leaf_reads leaf) marks.old }
{
    match leaf {
        Leaf::Keep => {}
        Leaf::Put(port) => mark_port(marks, port, stage),
        Leaf::Add(port) => mark_port(marks, port, stage),
        Leaf::Sub(port) => mark_port(marks, port, stage),
    }
}

fn mark_tree(marks: &mut [usize], tree: &Tree, stage: usize)
    ensures { marks.new ≡ marked stage (tree_reads (form tree.now)) marks.old }
{
    match tree {
        Tree::Leaf(leaf) => mark_leaf(marks, *leaf, stage),
        Tree::Fork { guard, yes, no } => {
            mark_guard(marks, *guard, stage);
            mark_tree(marks, yes, stage);
            mark_tree(marks, no, stage);
        }
    }
}

fn mark_trees(marks: &mut [usize], trees: &Trees, stage: usize)
    ensures { marks.new ≡ marked stage (trees_reads (forms trees.now)) marks.old }
{
    mark_tree(marks, &trees.first, stage);
    match &trees.second {
        None => {}
        Some(second) => mark_tree(marks, second, stage),
    }
}

fn mark_slot_reads(marks: &mut [usize], slots: &[PartSlot], stage: usize)
    ensures { marks.new ≡ marked stage (flat_map slot_reads slots.now) marks.old }
{
    for slot in slots {
        mark_port(marks, slot.index, stage);
    }
}

fn mark_slot_targets(marks: &mut [usize], slots: &[PartSlot], stage: usize)
    ensures { marks.new ≡ marked stage (flat_map slot_targets slots.now) marks.old }
{
    for slot in slots {
        mark_if(marks, slot.old, stage);
        mark_if(marks, slot.new, stage);
    }
}

fn mark_op_reads(marks: &mut [usize], atoms: &[OpAtom], stage: usize)
    ensures { marks.new ≡ marked stage (flat_map op_reads atoms.now) marks.old }
{
    for atom in atoms {
        mark_operation(marks, &atom.op, stage);
    }
}

fn mark_op_targets(marks: &mut [usize], atoms: &[OpAtom], stage: usize)
    ensures { marks.new ≡ marked stage (flat_map op_targets atoms.now) marks.old }
{
    for atom in atoms {
        mark(marks, atom.to, stage);
    }
}

fn mark_tree_reads(marks: &mut [usize], atoms: &[TreeAtom], stage: usize)
    ensures { marks.new ≡ marked stage (flat_map tree_atom_reads atoms.now) marks.old }
{
    for atom in atoms {
        mark_slot_reads(marks, atom.slots.as_slice(), stage);
        mark_trees(marks, &atom.trees, stage);
    }
}

fn mark_tree_targets(marks: &mut [usize], atoms: &[TreeAtom], stage: usize)
    ensures { marks.new ≡ marked stage (flat_map tree_atom_targets atoms.now) marks.old }
{
    for atom in atoms {
        mark_slot_targets(marks, atom.slots.as_slice(), stage);
    }
}

/// Marks what the atoms of a stage read.
pub(crate) fn mark_reads(marks: &mut [usize], atoms: &StageParts, stage: usize)
    ensures { marks.new ≡ marked stage (stage_reads (stage_form atoms.now)) marks.old }
{
    mark_op_reads(marks, atoms.stateless.as_slice(), stage);
    mark_tree_reads(marks, atoms.stateful.as_slice(), stage);
}

/// Marks what the atoms of a stage write.
pub(crate) fn mark_targets(marks: &mut [usize], atoms: &StageParts, stage: usize)
    ensures { marks.new ≡ marked stage (stage_targets (stage_form atoms.now)) marks.old }
{
    mark_op_targets(marks, atoms.stateless.as_slice(), stage);
    mark_tree_targets(marks, atoms.stateful.as_slice(), stage);
}
