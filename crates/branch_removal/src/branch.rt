//! Conditional moves.

ghost use Rattle.std.specs.Prelude.{◌≡◌, IfOk};
ghost use Rattle.dom_ast.specs.Resolved.{form};
ghost use Rattle.dom_ast.specs.Straight.{step_form};
ghost use Rattle.branch_removal.specs.Branches.{guarded as guarded_form, moved as moved_form};
ghost use Rattle.branch_removal.specs.inner.Within.{within as within_form};

use crate::copy::boxed;
use dom_ast::{Goal, Part, Step};
use dom_words::Memory;
use std::alloc::Global;

/// A branch of an `if`, with the fresh name that the condition's word has.
#[derive(Clone, Copy, Debug, PartialEq, Eq)]
pub(crate) enum Branch {
    Then(u32),
    Else(u32),
}

/// The new value where the branch is taken, and the old one where it is not.
fn moved(alloc: Global, branch: Branch, new: Part, old: Part) -> Result<Part, Memory>
    ensures { IfOk result (λ p. form p ≡ moved_form branch (form new) (form old)) }
{
    let new = boxed(alloc, new)?;
    let old = boxed(alloc, old)?;
    match branch {
        Branch::Then(fresh) => Ok(Part::Cond {
            test: boxed(alloc, Part::Fresh(fresh))?,
            yes: new,
            no: old,
        }),
        Branch::Else(fresh) => Ok(Part::Cond {
            test: boxed(alloc, Part::Fresh(fresh))?,
            yes: old,
            no: new,
        }),
    }
}

/// A step of a branch.
fn guarded(alloc: Global, branch: Branch, step: Step) -> Result<Step, Memory>
    ensures { IfOk result (λ s. step_form s ≡ guarded_form branch (step_form step)) }
{
    let Step { target, value } = step;
    match target {
        Goal::Field(field) => Ok(Step {
            target,
            value: moved(alloc, branch, value, Part::Field(field))?,
        }),
        Goal::State { array, index } => Ok(Step {
            target,
            value: moved(alloc, branch, value, Part::State { array, index })?,
        }),
        Goal::Fresh(_) => Ok(Step { target, value }),
    }
}

/// A step of the innermost of these branches, each of which stands in the one before it.
pub(crate) fn within(alloc: Global, branches: &[Branch], step: Step) -> Result<Step, Memory>
    ensures { IfOk result (λ s. step_form s ≡ within_form branches.now (step_form step)) }
{
    let mut moved = step;
    for branch in branches.iter().rev() {
        moved = guarded(alloc, *branch, moved)?;
    }
    Ok(moved)
}
