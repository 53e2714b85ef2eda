ghost use Rattle.std.specs.Prelude.{◌≡◌, IfOk, map, slice_index};
ghost use Rattle.std.specs.Option.{option_map};
ghost use Rattle.atom_traits.specs.Form.{form, form_if, forms};
ghost use Rattle.atom_traits.specs.Operation.{operation_renamed};
ghost use Rattle.atom_traits.specs.Renamed.{guard_renamed, leaf_renamed, port_renamed, renamed, second_renamed, source_renamed, tree_renamed};
ghost use Rattle.banzai_config.specs.Parts.{atom_form, parts_form, stage_form};
ghost use Rattle.container_plan.specs.Renamed.{form_renamed, op_renamed, parts_renamed, slot_renamed, stage_renamed};

use atom_traits::{Guard, Leaf, Port, Ports, Source, StatelessOp, Tree, Trees};
use banzai_config::{
    OpAtom, OpAtoms, PartSlot, PartSlots, Parts, StageList, StageParts, TreeAtom, TreeAtoms,
    Version,
};
use dom_words::{Memory, Seq};
use std::alloc::Global;

// The new number of a container; one past the end gets 0.
fn named(names: &[u32], container: u32) -> u32
    ensures { result ≡ slice_index names.now container }
{
    match names.get(container as usize) {
        Some(name) => *name,
        None => 0,
    }
}

fn named_if(names: &[u32], container: Option<u32>) -> Option<u32>
    ensures { result ≡ option_map (slice_index names.now) container }
{
    match container {
        Some(container) => Some(named(names, container)),
        None => None,
    }
}

fn named_port(names: &[u32], port: Port) -> Port
    ensures { result ≡ port_renamed (slice_index names.now) port }
{
    match port {
        Port::Const(word) => Port::Const(word),
        Port::Container(container) => Port::Container(named(names, container)),
    }
}

fn named_ports(alloc: Global, names: &[u32], ports: &[Port]) -> Result<Ports, Memory>
    ensures { IfOk result (λ new. new ≡ map (port_renamed (slice_index names.now)) ports.now) }
{
    let mut new = Seq::new(alloc);
    for port in ports {
        new.push(named_port(names, *port))?;
    }
    Ok(new)
}

fn named_operation(alloc: Global, names: &[u32], op: &StatelessOp) -> Result<StatelessOp, Memory>
    ensures { IfOk result (λ new. new ≡ operation_renamed (slice_index names.now) op.now) }
{
    match op {
        StatelessOp::Un { op, a } => Ok(StatelessOp::Un {
            op: *op,
            a: named_port(names, *a),
        }),
        StatelessOp::Bin { op, a, b } => Ok(StatelessOp::Bin {
            op: *op,
            a: named_port(names, *a),
            b: named_port(names, *b),
        }),
        StatelessOp::Cond { c, a, b } => Ok(StatelessOp::Cond {
            c: named_port(names, *c),
            a: named_port(names, *a),
            b: named_port(names, *b),
        }),
        StatelessOp::Hash {
            unit,
            modulus,
            args,
        } => Ok(StatelessOp::Hash {
            unit: *unit,
            modulus: *modulus,
            args: named_ports(alloc, names, args.as_slice())?,
        }),
    }
}

fn named_ops(alloc: Global, names: &[u32], atoms: &[OpAtom]) -> Result<OpAtoms, Memory>
    ensures { IfOk result (λ new. new ≡ map (op_renamed (slice_index names.now)) atoms.now) }
{
    let mut new = Seq::new(alloc);
    for atom in atoms {
        let to = named(names, atom.to);
        let op = named_operation(alloc, names, &atom.op)?;
        new.push(OpAtom { to, op })?;
    }
    Ok(new)
}

fn named_slots(alloc: Global, names: &[u32], slots: &[PartSlot]) -> Result<PartSlots, Memory>
    ensures { IfOk result (λ new. new ≡ map (slot_renamed (slice_index names.now)) slots.now) }
{
    let mut new = Seq::new(alloc);
    for slot in slots {
        new.push(PartSlot {
            array: slot.array,
            index: named_port(names, slot.index),
            old: named_if(names, slot.old),
            new: named_if(names, slot.new),
        })?;
    }
    Ok(new)
}

fn named_source(names: &[u32], source: Source) -> Source
    ensures { result ≡ source_renamed (slice_index names.now) source }
{
    match source {
        Source::Const(word) => Source::Const(word),
        Source::Container(container) => Source::Container(named(names, container)),
        Source::State(state) => Source::State(state),
    }
}

fn named_guard(names: &[u32], guard: Guard) -> Guard
    ensures { result ≡ guard_renamed (slice_index names.now) guard }
{
    Guard {
        rel: guard.rel,
        left: named_source(names, guard.left),
        right: named_source(names, guard.right),
    }
}

fn named_leaf(names: &[u32], leaf: Leaf) -> Leaf
    ensures { result ≡ leaf_renamed (slice_index names.now) leaf }
{
    match leaf {
        Leaf::Keep => Leaf::Keep,
        Leaf::Put(port) => Leaf::Put(named_port(names, port)),
        Leaf::Add(port) => Leaf::Add(named_port(names, port)),
        Leaf::Sub(port) => Leaf::Sub(named_port(names, port)),
    }
}

fn named_tree(alloc: Global, names: &[u32], tree: &Tree) -> Result<Tree, Memory>
    ensures { IfOk result (λ new. form new ≡ tree_renamed (slice_index names.now) (form tree.now)) }
{
    match tree {
        Tree::Leaf(leaf) => Ok(Tree::Leaf(named_leaf(names, *leaf))),
        Tree::Fork { guard, yes, no } => {
            let yes = Box::new(alloc, named_tree(alloc, names, yes)?).map_err(|_| Memory)?;
            let no = Box::new(alloc, named_tree(alloc, names, no)?).map_err(|_| Memory)?;
            Ok(Tree::Fork {
                guard: named_guard(names, *guard),
                yes,
                no,
            })
        }
    }
}

fn named_trees(alloc: Global, names: &[u32], trees: &Trees) -> Result<Trees, Memory>
    ensures { IfOk result (λ new. forms new ≡ renamed (slice_index names.now) (forms trees.now)) }
{
    let first = named_tree(alloc, names, &trees.first)?;
    let second = match &trees.second {
        None => None,
        Some(tree) => Some(named_tree(alloc, names, tree)?),
    };
    Ok(Trees { first, second })
}

fn named_atoms(alloc: Global, names: &[u32], atoms: &[TreeAtom]) -> Result<TreeAtoms, Memory>
    ensures { IfOk result (λ new. map atom_form new ≡ map (form_renamed (slice_index names.now)) (map atom_form atoms.now)) }
{
    let mut new = Seq::new(alloc);
    for atom in atoms {
        let slots = named_slots(alloc, names, atom.slots.as_slice())?;
        let trees = named_trees(alloc, names, &atom.trees)?;
        new.push(TreeAtom { slots, trees })?;
    }
    Ok(new)
}

fn named_stage(alloc: Global, names: &[u32], stage: &StageParts) -> Result<StageParts, Memory>
    ensures { IfOk result (λ new. stage_form new ≡ stage_renamed (slice_index names.now) (stage_form stage.now)) }
{
    let stateless = named_ops(alloc, names, stage.stateless.as_slice())?;
    let stateful = named_atoms(alloc, names, stage.stateful.as_slice())?;
    Ok(StageParts {
        stateless,
        stateful,
    })
}

fn named_stages(alloc: Global, names: &[u32], stages: &[StageParts]) -> Result<StageList, Memory>
    ensures { IfOk result (λ new. map stage_form new ≡ map (stage_renamed (slice_index names.now)) (map stage_form stages.now)) }
{
    let mut new = Seq::new(alloc);
    for stage in stages {
        let parts = named_stage(alloc, names, stage)?;
        new.push(parts)?;
    }
    Ok(new)
}

/// The parts with so many containers under their new numbers, in version two.
pub(crate) fn named_parts(
    alloc: Global,
    names: &[u32],
    containers: u32,
    parts: Parts,
) -> Result<Parts, Memory>
    ensures { IfOk result (λ new. parts_form new ≡ parts_renamed (slice_index names.now) containers (parts_form parts)) }
{
    let stages = named_stages(alloc, names, parts.stages.as_slice())?;
    let outputs = named_ports(alloc, names, parts.outputs.as_slice())?;
    let Parts {
        version: _,
        fields,
        arrays,
        containers: _,
        stages: _,
        outputs: _,
    } = parts;
    Ok(Parts {
        version: Version::Two,
        fields,
        arrays,
        containers,
        stages,
        outputs,
    })
}
