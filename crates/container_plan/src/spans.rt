ghost use Rattle.std.specs.Prelude.{◌≡◌, ℕ, suc, ◌+◌, ◌<◌, ◌≤◌, length, map, slice_index, IfOk, nat_lt, if◌then◌else◌};
ghost use Rattle.std.specs.List.{flat_map, range_with_len};
ghost use Rattle.banzai_config.specs.Legal.{has};
ghost use Rattle.banzai_config.specs.Named.{port_reads};
ghost use Rattle.banzai_config.specs.Parts.{parts_form, stage_form};
ghost use Rattle.container_plan.specs.Shared.{container_of, last, last_from, made, made_from, shared};

use crate::assign::{Plan, assign};
use crate::marks::{mark_ports, mark_reads, mark_targets};
use atom_traits::Port;
use banzai_config::{Parts, StageParts};
use std::alloc::{AllocError, Global};

// For each container the first stage that writes it, or one behind the last stage.
fn mark_written(marks: &mut [usize], stages: &[StageParts])
    requires few { length stages.now ≤ 65535 }
    requires unwritten { (v : ℕ) → v < length marks.old → slice_index marks.old v ≡ length stages.now + 1 }
    ensures { (v : ℕ) → v < length marks.old → slice_index marks.new v ≡ made_from 1 (map stage_form stages.now) v }
{
    let mut passed = stages.len();
    while passed > 0 {
        passed -= 1;
        mark_targets(marks, &stages[passed], passed + 1);
    }
}

// For each container the greatest stage that reads it, else the mark that it has.
fn mark_read(marks: &mut [usize], stages: &[StageParts])
    requires { length stages.now ≤ 65535 }
    ensures { (v : ℕ) → v < length marks.old → slice_index marks.new v ≡ last_from 1 (map stage_form stages.now) v (slice_index marks.old v) }
{
    for k in 0..stages.len() {
        mark_reads(marks, &stages[k], k + 1);
    }
}

// The fields are made at stage 0.
fn mark_fields(marks: &mut [usize], fields: usize)
    requires { fields ≤ length marks.old }
    ensures { (v : ℕ) → v < length marks.old → slice_index marks.new v ≡ (if nat_lt v fields then 0 else slice_index marks.old v) }
{
    for v in 0..fields {
        marks[v] = 0;
    }
}

// For each container the stage at which its value is made; one behind the last stage where it holds no value.
fn made_of(
    alloc: Global,
    fields: usize,
    containers: usize,
    stages: &[StageParts],
) -> Result<Vec<usize>, AllocError>
    requires few { length stages.now ≤ 65535 }
    requires fields { fields ≤ containers }
    ensures { IfOk result (λ made. (length made.items ≡ containers)
        × ((v : ℕ) → v < containers → slice_index made.items v ≡ (if nat_lt v fields then 0 else made_from 1 (map stage_form stages.now) v))) }
{
    let mut made = vec![in alloc; stages.len() + 1; containers]?;
    mark_written(&mut made, stages);
    mark_fields(&mut made, fields);
    Ok(made)
}

// For each container the last stage of its value.
fn last_of(
    alloc: Global,
    made: &[usize],
    stages: &[StageParts],
    outputs: &[Port],
) -> Result<Vec<usize>, AllocError>
    requires { length stages.now ≤ 65535 }
    ensures { IfOk result (λ last. (length last.items ≡ length made.now)
        × ((v : ℕ) → v < length made.now → slice_index last.items v
        ≡ (if has v (flat_map port_reads outputs.now) then length stages.now + 1 else last_from 1 (map stage_form stages.now) v (slice_index made.now v)))) }
{
    let mut last = made.to_vec(alloc)?;
    mark_read(&mut last, stages);
    mark_ports(&mut last, outputs, stages.len() + 1);
    Ok(last)
}

/// The container that each value takes, and how many there are.
pub(crate) fn plan(alloc: Global, parts: &Parts) -> Result<Plan, AllocError>
    requires few { length parts.now.stages ≤ 65535 }
    requires fields { length parts.now.fields ≤ parts.now.containers }
    requires short { (v : ℕ) → made (parts_form parts.now) v ≤ last (parts_form parts.now) v }
    ensures { IfOk result (λ plan. (plan.names.items ≡ map (container_of (parts_form parts.now)) (range_with_len 0 parts.now.containers))
        × (plan.containers ≡ (shared (parts_form parts.now)).containers)) }
{
    let stages = parts.stages.as_slice();
    let made = made_of(alloc, parts.fields.len(), parts.containers as usize, stages)?;
    let last = last_of(alloc, &made, stages, parts.outputs.as_slice())?;
    let plan = assign(alloc, &made, &last, stages.len() + 1)?;
    Ok(plan)
}
