//! The steps of transactions.

ghost use Rattle.std.specs.Prelude.{◌≡◌, ◌+◌, ◌<◌, ◌^◌, ◌++◌, IfOk, OnOk, map};
ghost use Rattle.dom_ast.specs.Resolved.{act_forms, bodies_form, guard_form};
ghost use Rattle.dom_ast.specs.Straight.{step_form};
ghost use Rattle.branch_removal.specs.Branches.{acts_ifs, acts_steps, bodies_steps, chosen_steps, guard_count as guards_in, guard_steps, guards, ifs, straight};

use crate::branch::Branch;
use crate::steps::{put_acts, put_branch, put_condition};
use dom_ast::{Act, ActList, BodyList, Part, StepList};
use dom_words::{Memory, Seq};
use std::alloc::Global;

/// Puts one step at the end for each guard, with fresh names from 0 on, and answers their number.
fn put_guards(
    alloc: Global,
    bodies: &[(Option<Part>, ActList)],
    steps: &mut StepList,
) -> Result<u32, Memory>
    requires { guards (bodies_form bodies.now) < 2 ^ 32 }
    ensures steps { OnOk result (map step_form steps.new ≡ map step_form steps.old ++ guard_steps 0 (bodies_form bodies.now)) }
    ensures count { IfOk result (λ r. r ≡ guards (bodies_form bodies.now)) }
{
    let mut count = 0;
    for (guard, _) in bodies {
        if let Some(test) = guard {
            put_condition(alloc, test, count, steps)?;
            count += 1;
        }
    }
    Ok(count)
}

/// Puts the steps of a transaction at the end, with fresh names from `next` on, and answers the next fresh name. The word of
/// its guard, where it has one, has the fresh name `name`.
#[tactic(auto, using(crate::proofs::Moves::all_within_none))]
fn put_body(
    alloc: Global,
    guard: &Option<Part>,
    name: u32,
    acts: &[Act],
    next: u32,
    steps: &mut StepList,
) -> Result<u32, Memory>
    requires { next + acts_ifs (act_forms acts.now) < 2 ^ 32 }
    ensures steps { OnOk result (map step_form steps.new ≡ map step_form steps.old ++ chosen_steps name (guard_form guard.now) (acts_steps next (act_forms acts.now))) }
    ensures next { IfOk result (λ r. r ≡ next + acts_ifs (act_forms acts.now)) }
{
    let mut branches = Vec::new(alloc);
    match guard {
        Some(_) => put_branch(alloc, acts, next, Branch::Then(name), &mut branches, steps),
        None => put_acts(alloc, acts, next, &mut branches, steps),
    }
}

fn guard_count(guard: &Option<Part>) -> u32
    ensures { result ≡ guards_in (guard_form guard.now) }
{
    match guard {
        Some(_) => 1,
        None => 0,
    }
}

/// Puts the steps of transactions at the end, with the guards' fresh names from 0 on and those of their `if`s from `next`
/// on, and answers the next fresh name.
fn put_bodies(
    alloc: Global,
    bodies: &[(Option<Part>, ActList)],
    next: u32,
    steps: &mut StepList,
) -> Result<u32, Memory>
    requires names { next + ifs (bodies_form bodies.now) < 2 ^ 32 }
    requires guards { guards (bodies_form bodies.now) < 2 ^ 32 }
    ensures steps { OnOk result (map step_form steps.new ≡ map step_form steps.old ++ bodies_steps 0 next (bodies_form bodies.now)) }
    ensures next { IfOk result (λ r. r ≡ next + ifs (bodies_form bodies.now)) }
{
    let mut name = 0;
    let mut free = next;
    for (guard, acts) in bodies {
        free = put_body(alloc, guard, name, acts.as_slice(), free, steps)?;
        name += guard_count(guard);
    }
    Ok(free)
}

/// The steps of transactions, and the number of their fresh names.
pub(crate) fn steps_of(alloc: Global, bodies: &BodyList) -> Result<(StepList, u32), Memory>
    requires { guards (bodies_form bodies.now) + ifs (bodies_form bodies.now) < 2 ^ 32 }
    ensures list { IfOk result (λ r. map step_form r.0 ≡ straight (bodies_form bodies.now)) }
    ensures fresh { IfOk result (λ r. r.1 ≡ guards (bodies_form bodies.now) + ifs (bodies_form bodies.now)) }
{
    let mut steps = Seq::new(alloc);
    let next = put_guards(alloc, bodies.as_slice(), &mut steps)?;
    let fresh = put_bodies(alloc, bodies.as_slice(), next, &mut steps)?;
    Ok((steps, fresh))
}
