ghost use Rattle.std.specs.Prelude.{◌≡◌, ◌++◌, IfOk, OnOk, map, true};
ghost use Rattle.std.specs.List.{flat_map, list_all};
ghost use Rattle.atom_traits.specs.Form.{form, forms};
ghost use Rattle.banzai_config.specs.Legal.{LegalFor};
ghost use Rattle.banzai_config.specs.Parts.{atom_form, parts_form, stage_form};
ghost use Rattle.banzai_config.specs.Targets.{name_of, shape_of};
ghost use Rattle.config_text.specs.Fronts.{TextOf, for_target, text_of};
ghost use Rattle.config_text.specs.Lines.{array, containers, field, head, op, out, target as target_line, words_of};
ghost use Rattle.config_text.specs.Small.{is_array_small, is_op_small};
ghost use Rattle.config_text.specs.Words.{port_fits};
ghost use Rattle.config_text.specs.Writer.{are_numbers_written, are_slots_written, atom_bytes, front_bytes, is_atom_written, is_slot_written, is_stage_written, line_bytes, op_bytes, slot_bytes, slots_bytes, spelled, stage_bytes, stages_bytes, whole_bytes};

use crate::spelling::{
    add, add_container, add_count, add_number, add_option, add_port, add_ports, add_signed_word,
    add_tree, add_unit, add_word, bin_name, un_name, version_name,
};
use atom_traits::{AtomTemplate, Port, StatelessOp, Tree, Trees};
use banzai_config::{Config, OpAtom, PartSlot, Parts, StageParts, Target, TreeAtom, Version};
use dom_words::{Array, Memory, Name};
use std::alloc::Global;

fn add_head(version: Version, text: &mut Vec<u8>) -> Result<(), Memory>
    ensures { OnOk result (text.new.items ≡ text.old.items ++ line_bytes (head version)) }
{
    add(b"banzai", text)?;
    add_word(version_name(version).as_bytes(), text)?;
    add(b"\n", text)
}

fn add_target(target: Target, text: &mut Vec<u8>) -> Result<(), Memory>
    ensures { OnOk result (text.new.items ≡ text.old.items ++ line_bytes (target_line (name_of target))) }
{
    add(b"target", text)?;
    add_word(target.name().as_bytes(), text)?;
    add(b"\n", text)
}

fn add_field(name: &Name, text: &mut Vec<u8>) -> Result<(), Memory>
    ensures { OnOk result (text.new.items ≡ text.old.items ++ line_bytes (field name.now)) }
{
    add(b"field", text)?;
    add_word(name.as_bytes(), text)?;
    add(b"\n", text)
}

fn add_fields(names: &[Name], text: &mut Vec<u8>) -> Result<(), Memory>
    ensures { OnOk result (text.new.items ≡ text.old.items ++ flat_map (λ name. line_bytes (field name)) names.now) }
{
    for name in names {
        add_field(name, text)?;
    }
    Ok(())
}

fn add_array(item: &Array, text: &mut Vec<u8>) -> Result<(), Memory>
    ensures text { OnOk result (text.new.items ≡ text.old.items ++ line_bytes (array item.now)) }
    ensures small { OnOk result (is_array_small item.now ≡ true) }
{
    add(b"array", text)?;
    add_word(item.name.as_bytes(), text)?;
    add_count(u64::from(item.length), text)?;
    add_signed_word(item.init, text)?;
    add(b"\n", text)
}

fn add_arrays(arrays: &[Array], text: &mut Vec<u8>) -> Result<(), Memory>
    ensures text { OnOk result (text.new.items ≡ text.old.items ++ flat_map (λ a. line_bytes (array a)) arrays.now) }
    ensures small { OnOk result (list_all is_array_small arrays.now ≡ true) }
{
    for item in arrays {
        add_array(item, text)?;
    }
    Ok(())
}

fn add_containers(number: u32, text: &mut Vec<u8>) -> Result<(), Memory>
    ensures { OnOk result (text.new.items ≡ text.old.items ++ line_bytes (containers number)) }
{
    add(b"containers", text)?;
    add_count(u64::from(number), text)?;
    add(b"\n", text)
}

// The words of an atom without state.
fn add_op_words(item: &OpAtom, text: &mut Vec<u8>) -> Result<(), Memory>
    ensures text { OnOk result (text.new.items ≡ text.old.items ++ spelled (words_of (op item.now))) }
    ensures small { OnOk result (is_op_small item.now ≡ true) }
{
    match &item.op {
        StatelessOp::Un { op, a } => {
            add(b"un", text)?;
            add_container(item.to, text)?;
            add_word(un_name(*op).as_bytes(), text)?;
            add_port(*a, text)
        }
        StatelessOp::Bin { op, a, b } => {
            add(b"bin", text)?;
            add_container(item.to, text)?;
            add_word(bin_name(*op).as_bytes(), text)?;
            add_port(*a, text)?;
            add_port(*b, text)
        }
        StatelessOp::Cond { c, a, b } => {
            add(b"cond", text)?;
            add_container(item.to, text)?;
            add_port(*c, text)?;
            add_port(*a, text)?;
            add_port(*b, text)
        }
        StatelessOp::Hash {
            unit,
            modulus,
            args,
        } => {
            add(b"hash", text)?;
            add_container(item.to, text)?;
            add_unit(*unit, text)?;
            add_count(u64::from(*modulus), text)?;
            add_ports(args.as_slice(), text)
        }
    }
}

fn add_op(item: &OpAtom, text: &mut Vec<u8>) -> Result<(), Memory>
    ensures text { OnOk result (text.new.items ≡ text.old.items ++ op_bytes item.now) }
    ensures small { OnOk result (is_op_small item.now ≡ true) }
{
    add_op_words(item, text)?;
    add(b"\n", text)
}

fn add_ops(atoms: &[OpAtom], text: &mut Vec<u8>) -> Result<(), Memory>
    ensures text { OnOk result (text.new.items ≡ text.old.items ++ flat_map op_bytes atoms.now) }
    ensures small { OnOk result (list_all is_op_small atoms.now ≡ true) }
{
    for item in atoms {
        add_op(item, text)?;
    }
    Ok(())
}

fn add_slot(slot: &PartSlot, tree: &Tree, text: &mut Vec<u8>) -> Result<(), Memory>
    ensures text { OnOk result (text.new.items ≡ text.old.items ++ slot_bytes slot.now (form tree.now)) }
    ensures small { OnOk result (is_slot_written slot.now (form tree.now) ≡ true) }
{
    add(b"slot,", text)?;
    add_number(u64::from(slot.array), text)?;
    add_port(slot.index, text)?;
    add_option(slot.old, text)?;
    add_option(slot.new, text)?;
    add_tree(tree, text)?;
    add(b"\n", text)
}

// The first slot with the first tree, and the second with the second.
fn add_slots(slots: &[PartSlot], trees: &Trees, text: &mut Vec<u8>) -> Result<(), Memory>
    ensures text { OnOk result (text.new.items ≡ text.old.items ++ slots_bytes slots.now (forms trees.now).first (forms trees.now).second) }
    ensures small { OnOk result (are_slots_written slots.now (forms trees.now).first (forms trees.now).second ≡ true) }
{
    match slots {
        [] => Ok(()),
        [slot, rest @ ..] => {
            add_slot(slot, &trees.first, text)?;
            match rest {
                [] => Ok(()),
                [next, ..] => match &trees.second {
                    None => Ok(()),
                    Some(second) => add_slot(next, second, text),
                },
            }
        }
    }
}

fn add_atom(item: &TreeAtom, text: &mut Vec<u8>) -> Result<(), Memory>
    ensures text { OnOk result (text.new.items ≡ text.old.items ++ atom_bytes (atom_form item.now)) }
    ensures small { OnOk result (is_atom_written (atom_form item.now) ≡ true) }
{
    add(b"atom", text)?;
    add_count(item.slots.len() as u64, text)?;
    add(b"\n", text)?;
    add_slots(item.slots.as_slice(), &item.trees, text)
}

fn add_atoms(atoms: &[TreeAtom], text: &mut Vec<u8>) -> Result<(), Memory>
    ensures text { OnOk result (text.new.items ≡ text.old.items ++ flat_map atom_bytes (map atom_form atoms.now)) }
    ensures small { OnOk result (list_all is_atom_written (map atom_form atoms.now) ≡ true) }
{
    for item in atoms {
        add_atom(item, text)?;
    }
    Ok(())
}

fn add_stage(number: u64, item: &StageParts, text: &mut Vec<u8>) -> Result<(), Memory>
    ensures text { OnOk result (text.new.items ≡ text.old.items ++ stage_bytes number (stage_form item.now)) }
    ensures small { OnOk result (is_stage_written (stage_form item.now) ≡ true) }
{
    add(b"stage", text)?;
    add_count(number, text)?;
    add(b"\n", text)?;
    add_ops(item.stateless.as_slice(), text)?;
    add_atoms(item.stateful.as_slice(), text)
}

fn add_stages(stages: &[StageParts], text: &mut Vec<u8>) -> Result<(), Memory>
    ensures text { OnOk result (text.new.items ≡ text.old.items ++ stages_bytes 1 (map stage_form stages.now)) }
    ensures small { OnOk result (list_all is_stage_written (map stage_form stages.now) ≡ true) }
{
    'stages: for k in 0..stages.len() {
        add_stage(k as u64 + 1, &stages[k], text)?;
    }
    Ok(())
}

fn add_out(port: Port, text: &mut Vec<u8>) -> Result<(), Memory>
    ensures text { OnOk result (text.new.items ≡ text.old.items ++ line_bytes (out port)) }
    ensures small { OnOk result (port_fits port ≡ true) }
{
    add(b"out", text)?;
    add_port(port, text)?;
    add(b"\n", text)
}

fn add_outputs(outputs: &[Port], text: &mut Vec<u8>) -> Result<(), Memory>
    ensures text { OnOk result (text.new.items ≡ text.old.items ++ flat_map (λ p. line_bytes (out p)) outputs.now) }
    ensures small { OnOk result (list_all port_fits outputs.now ≡ true) }
{
    for port in outputs {
        add_out(*port, text)?;
    }
    Ok(())
}

// The lines before those of the stages.
fn add_front(target: Target, parts: &Parts, text: &mut Vec<u8>) -> Result<(), Memory>
    ensures text { OnOk result (text.new.items ≡ text.old.items ++ front_bytes (for_target target (parts_form parts.now))) }
    ensures small { OnOk result (list_all is_array_small parts.now.arrays ≡ true) }
{
    add_head(parts.version, text)?;
    add_target(target, text)?;
    add_fields(parts.fields.as_slice(), text)?;
    add_arrays(parts.arrays.as_slice(), text)?;
    add_containers(parts.containers, text)
}

fn add_parts(target: Target, parts: &Parts, text: &mut Vec<u8>) -> Result<(), Memory>
    ensures text { OnOk result (text.new.items ≡ text.old.items ++ whole_bytes (for_target target (parts_form parts.now))) }
    ensures small { OnOk result (are_numbers_written (parts_form parts.now) ≡ true) }
{
    add_front(target, parts, text)?;
    add_stages(parts.stages.as_slice(), text)?;
    add_outputs(parts.outputs.as_slice(), text)?;
    add(b"end\n", text)
}

/// The one text of a configuration for a target (docs/FORMATS.md, "The text of a configuration"). It is a text that is read
/// back where the configuration is legal for the target. `Err` only for want of memory.
pub fn write_config<T: AtomTemplate>(
    alloc: Global,
    config: &Config<T>,
    target: Target,
) -> Result<Vec<u8>, Memory>
    ensures text { IfOk result (λ text. text.items ≡ text_of target config.now) }
    ensures legal { IfOk result (λ text. LegalFor (shape_of target) config.now → TextOf target config.now text.items) }
{
    let parts = config.parts(alloc)?;
    let mut text = Vec::new(alloc);
    add_parts(target, &parts, &mut text)?;
    Ok(text)
}
