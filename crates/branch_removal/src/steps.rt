//! The steps of statements.

ghost use Rattle.std.specs.Prelude.{◌≡◌, ◌+◌, ◌<◌, ◌^◌, ◌++◌, [], ◌∷◌, IfOk, OnOk, map};
ghost use Rattle.dom_ast.specs.Resolved.{act_form, act_forms, form};
ghost use Rattle.dom_ast.specs.Straight.{step_form};
ghost use Rattle.branch_removal.specs.Branches.{act_ifs, act_steps, acts_ifs, acts_steps, step as step_to};
ghost use Rattle.branch_removal.specs.inner.Within.{within as within_form};

use crate::branch::{Branch, within};
use crate::copy::copy;
use dom_ast::{Act, ActList, Goal, Part, Step, StepList};
use dom_words::Memory;
use std::alloc::Global;

/// Puts the steps of statements at the end, with fresh names from `next` on, and answers the next fresh name. The
/// statements stand in the innermost of the branches.
#[cycle(steps)]
pub(crate) fn put_acts(
    alloc: Global,
    acts: &[Act],
    next: u32,
    branches: &mut Vec<Branch>,
    steps: &mut StepList,
) -> Result<u32, Memory>
    requires { next + acts_ifs (act_forms acts.now) < 2 ^ 32 }
    ensures steps { OnOk result (map step_form steps.new ≡ map step_form steps.old ++ map (within_form branches.old.items) (acts_steps next (act_forms acts.now))) }
    ensures next { IfOk result (λ r. r ≡ next + acts_ifs (act_forms acts.now)) }
    ensures branches { OnOk result (branches.new.items ≡ branches.old.items) }
{
    let mut free = next;
    for act in acts {
        free = put_act(alloc, act, free, branches, steps)?;
    }
    Ok(free)
}

/// Puts the steps of a statement at the end, with fresh names from `next` on, and answers the next fresh name.
#[cycle(steps)]
fn put_act(
    alloc: Global,
    act: &Act,
    next: u32,
    branches: &mut Vec<Branch>,
    steps: &mut StepList,
) -> Result<u32, Memory>
    requires { next + act_ifs (act_form act.now) < 2 ^ 32 }
    ensures steps { OnOk result (map step_form steps.new ≡ map step_form steps.old ++ map (within_form branches.old.items) (act_steps next (act_form act.now))) }
    ensures next { IfOk result (λ r. r ≡ next + act_ifs (act_form act.now)) }
    ensures branches { OnOk result (branches.new.items ≡ branches.old.items) }
{
    match act {
        Act::Assign { target, value } => {
            let step = Step {
                target: *target,
                value: copy(alloc, value)?,
            };
            steps.push(within(alloc, branches.as_slice(), step)?)?;
            Ok(next)
        }
        Act::If { test, yes, no } => {
            put_condition(alloc, test, next, steps)?;
            let free = put_branch(
                alloc,
                yes.as_slice(),
                next + 1,
                Branch::Then(next),
                branches,
                steps,
            )?;
            let free = put_branch(
                alloc,
                no.as_slice(),
                free,
                Branch::Else(next),
                branches,
                steps,
            )?;
            Ok(free)
        }
    }
}

/// Puts the steps of a branch's statements at the end, with fresh names from `next` on, and answers the next fresh name.
#[cycle(steps)]
pub(crate) fn put_branch(
    alloc: Global,
    acts: &[Act],
    next: u32,
    branch: Branch,
    branches: &mut Vec<Branch>,
    steps: &mut StepList,
) -> Result<u32, Memory>
    requires { next + acts_ifs (act_forms acts.now) < 2 ^ 32 }
    ensures steps { OnOk result (map step_form steps.new ≡ map step_form steps.old ++ map (within_form (branches.old.items ++ branch ∷ [])) (acts_steps next (act_forms acts.now))) }
    ensures next { IfOk result (λ r. r ≡ next + acts_ifs (act_forms acts.now)) }
    ensures branches { OnOk result (branches.new.items ≡ branches.old.items) }
{
    branches.push(branch).map_err(|_| Memory)?;
    let free = put_acts(alloc, acts, next, branches, steps)?;
    branches.pop();
    Ok(free)
}

/// Puts a step at the end that gives the word of a condition to a fresh name.
pub(crate) fn put_condition(
    alloc: Global,
    test: &Part,
    fresh: u32,
    steps: &mut StepList,
) -> Result<(), Memory>
    ensures { OnOk result (map step_form steps.new ≡ map step_form steps.old ++ step_to (Goal.Fresh fresh) (form test.now) ∷ []) }
{
    steps.push(Step {
        target: Goal::Fresh(fresh),
        value: copy(alloc, test)?,
    })
}
