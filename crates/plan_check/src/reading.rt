ghost use Rattle.std.specs.Prelude.{◌≡◌, IfErr, IfOk, Ok};
ghost use Rattle.plan_check.specs.PlanText.{IsPlanAnswer, IsReadFault};

use crate::fault::PlanTextFault;
use crate::line::line_at_front;
use crate::plan::HandPlan;
use codelets::Codelets;
use stage_plan::Place;
use std::alloc::Global;

/// The plan that a text is for codelets and a pipeline of `depth` stages: one line `codelet,S,STAGE` for each codelet, in
/// order, each with its line feed. S is the codelet's least statement number, STAGE is from 1 to `depth`, and both are
/// decimals without leading zeros.
pub fn read_plan(
    alloc: Global,
    text: &[u8],
    codelets: &Codelets,
    depth: u32,
) -> Result<HandPlan, PlanTextFault>
    ensures plan { IfOk result (λ plan. IsPlanAnswer depth codelets.now.list text.now (Ok plan)) }
    ensures refused { IfErr result (λ fault. IsReadFault depth codelets.now.list text.now fault) }
{
    let mut places = Vec::new(alloc);
    let mut rest = text;
    let list = codelets.list();
    'codelets: for codelet in list {
        let Some(line) = line_at_front(rest, codelet.first, depth) else {
            return Err(PlanTextFault::Line(places.len() as u32 + 1));
        };
        let Ok(()) = places.push(Place {
            kind: codelet.kind,
            stage: line.value,
        }) else {
            return Err(PlanTextFault::Memory);
        };
        rest = line.rest;
    }
    if !rest.is_empty() {
        return Err(PlanTextFault::Line(places.len() as u32 + 1));
    }
    Ok(HandPlan { places })
}
