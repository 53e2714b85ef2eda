//! Steps between their flanks.

ghost use Rattle.std.specs.Prelude.{◌≡◌, ◌<◌, ◌^◌, [], ◌∷◌, ◌++◌, false, IfOk, None, OnOk, map, replicate};
ghost use Rattle.dom_ast.specs.Flanks.{flank_form, set};
ghost use Rattle.dom_ast.specs.Straight.{step_form};
ghost use Rattle.state_flanks.specs.inner.Tables.{marks, new_writes, reads, steps_noted, steps_reads};
ghost use Rattle.state_flanks.specs.WithFlanks.{step_mentions};

use crate::reads::{put_reads, put_target};
use crate::writes::{note, put_writes};
use dom_ast::{FlankItem, FlankList, Place, Step};
use dom_words::{Memory, Seq};
use std::alloc::Global;

/// Puts a step at the end, behind the read flanks of the arrays that it is the first to mention.
fn put_step(step: Step, mentioned: &mut [bool], items: &mut FlankList) -> Result<(), Memory>
    ensures items { OnOk result (map flank_form items.new ≡ map flank_form items.old ++ (reads mentioned.old (step_mentions (step_form step)) ++ set (step_form step) ∷ [])) }
    ensures mentioned { OnOk result (mentioned.new ≡ marks mentioned.old (step_mentions (step_form step))) }
{
    put_reads(&step.value, mentioned, items)?;
    put_target(step.target, mentioned, items)?;
    items.push(FlankItem::Set(step))?;
    Ok(())
}

/// Puts steps at the end with their read flanks, and notes where they write.
fn put_steps(
    steps: Vec<Step>,
    mentioned: &mut [bool],
    written: &mut [Option<Place>],
    items: &mut FlankList,
) -> Result<(), Memory>
    ensures items { OnOk result (map flank_form items.new ≡ map flank_form items.old ++ steps_reads mentioned.old (map step_form steps.items)) }
    ensures written { OnOk result (written.new ≡ steps_noted written.old (map step_form steps.items)) }
{
    for step in steps {
        note(step.target, written);
        put_step(step, mentioned, items)?;
    }
    Ok(())
}

/// A table that says of no array that it has been mentioned.
fn none_mentioned(alloc: Global, arrays: usize) -> Result<Vec<bool>, Memory>
    ensures { IfOk result (λ table. table.items ≡ replicate arrays false) }
{
    vec![in alloc; false; arrays].map_err(|_| Memory)
}

/// A table that has the index of no array.
fn none_written(alloc: Global, arrays: usize) -> Result<Vec<Option<Place>>, Memory>
    ensures { IfOk result (λ table. table.items ≡ replicate arrays None) }
{
    vec![in alloc; None; arrays].map_err(|_| Memory)
}

/// Steps between their flanks, over so many arrays.
pub(crate) fn items_of(alloc: Global, steps: Vec<Step>, arrays: usize) -> Result<FlankList, Memory>
    requires { arrays < 2 ^ 32 }
    ensures { IfOk result (λ items. map flank_form items ≡ steps_reads (replicate arrays false) (map step_form steps.items) ++ new_writes 0 (steps_noted (replicate arrays None) (map step_form steps.items))) }
{
    let mut mentioned = none_mentioned(alloc, arrays)?;
    let mut written = none_written(alloc, arrays)?;
    let mut items = Seq::new(alloc);
    put_steps(
        steps,
        mentioned.as_mut_slice(),
        written.as_mut_slice(),
        &mut items,
    )?;
    put_writes(written.as_slice(), &mut items)?;
    Ok(items)
}
