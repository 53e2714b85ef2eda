ghost use Rattle.std.specs.Prelude.{◌≡◌, ℕ, ◌<◌, ◌≤◌, List, length, map, slice_index, fold, IfOk};
ghost use Rattle.std.specs.List.{range_with_len};
ghost use Rattle.container_plan.specs.Spans.{Taken, container_in, number_in, take_next};
ghost use Rattle.container_plan.specs.State.{IsState, made_at, occupied, taken_before};

use std::alloc::{AllocError, Global};

/// For each value its container, and how many containers there are.
#[derive(Drop)]
pub(crate) struct Plan {
    pub(crate) names: Vec<usize>,
    pub(crate) containers: usize,
}

// The first container from `from` on whose last value is past at stage k, or the number of containers.
fn next_free(until: &[usize], from: usize, k: usize) -> usize
    requires { from ≤ length until.now }
    ensures low { from ≤ result }
    ensures high { result ≤ length until.now }
    ensures passed { (c : ℕ) → from ≤ c → c < result → k ≤ slice_index until.now c }
    ensures free { result < length until.now → slice_index until.now result < k }
{
    for c in from..until.len() {
        if until[c] < k {
            return c;
        }
    }
    until.len()
}

// A value whose last stage is `stage` takes container c.
fn occupy(until: &mut Vec<usize>, c: usize, stage: usize) -> Result<(), AllocError>
    requires { c ≤ length until.old.items }
    ensures { IfOk result (λ _. until.new.items ≡ occupied until.old.items c stage) }
{
    if c < until.len() {
        until[c] = stage;
        Ok(())
    } else {
        until.push(stage)?;
        Ok(())
    }
}

// The values that are made at stage k take containers, in the order of their numbers.
fn take_stage(
    names: &mut [usize],
    until: &mut Vec<usize>,
    made: &[usize],
    last: &[usize],
    k: usize,
) -> Result<(), AllocError>
    requires names { length names.old ≡ length made.now }
    requires last { length last.now ≡ length made.now }
    requires short { (v : ℕ) → slice_index made.now v ≤ slice_index last.now v }
    ensures { IfOk result (λ _. (done : List Taken) → IsState (slice_index made.now) (slice_index last.now) names.old until.old.items done
        → IsState (slice_index made.now) (slice_index last.now) names.new until.new.items (fold (take_next (slice_index made.now) (slice_index last.now)) done (made_at made.now k (length made.now)))) }
{
    let mut free = 0;
    for v in 0..made.len() {
        if made[v] == k {
            free = next_free(until, free, k);
            occupy(until, free, last[v])?;
            names[v] = free;
            free += 1;
        }
    }
    Ok(())
}

/// Goes through the stages before a bound: each value that is made there takes the least container that is free.
pub(crate) fn assign(
    alloc: Global,
    made: &[usize],
    last: &[usize],
    stages: usize,
) -> Result<Plan, AllocError>
    requires last { length last.now ≡ length made.now }
    requires short { (v : ℕ) → slice_index made.now v ≤ slice_index last.now v }
    ensures { IfOk result (λ plan. (plan.names.items ≡ map (container_in (taken_before made.now last.now stages)) (range_with_len 0 (length made.now)))
        × (plan.containers ≡ number_in (taken_before made.now last.now stages))) }
{
    let mut names = vec![in alloc; 0; made.len()]?;
    let mut until: Vec<usize> = Vec::new(alloc);
    for k in 0..stages {
        take_stage(&mut names, &mut until, made, last, k)?;
    }
    let containers = until.len();
    Ok(Plan { names, containers })
}
