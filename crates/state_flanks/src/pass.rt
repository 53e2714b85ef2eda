ghost use Rattle.std.specs.Prelude.{◌≡◌, ◌<◌, ◌^◌, IfOk, map};
ghost use Rattle.dom_words.specs.State.{AgreeUnder, IsStateOf};
ghost use Rattle.dom_ast.specs.Flanks.{flank_form, flanked_outcome, flanks_nodes};
ghost use Rattle.dom_ast.specs.Straight.{step_form, steps_nodes, straight_outcome};
ghost use Rattle.state_flanks.specs.WithFlanks.{with_flanks};

use crate::steps::items_of;
use dom_ast::{Flanked, Straight};
use dom_words::Memory;
use std::alloc::Global;

/// The steps between read and write flanks. For each array that is mentioned, one read flank stands just before the first
/// step that mentions it; where a step is the first to mention several, they come in the order of its value from left to
/// right and then its target. For each array that is a target, one write flank stands at the end, in order of declaration
/// (Sivaraman et al., "Packet Transactions", SIGCOMM 2016, "Rewriting state variable operations").
pub fn flank(alloc: Global, steps: Straight) -> Result<Flanked, Memory>
    requires few { steps_nodes (map step_form steps.steps) < 2 ^ 22 }
    ensures list { IfOk result (λ f. map flank_form f.items ≡ with_flanks steps.arrays (map step_form steps.steps)) }
    ensures fresh { IfOk result (λ f. f.fresh ≡ steps.fresh) }
    ensures fields { IfOk result (λ f. f.fields ≡ steps.fields) }
    ensures arrays { IfOk result (λ f. f.arrays ≡ steps.arrays) }
    ensures means { IfOk result (λ f. AgreeUnder (λ hash packet. IsStateOf steps.arrays) (λ hash. flanked_outcome hash (map flank_form f.items)) (λ hash. straight_outcome hash (map step_form steps.steps))) }
    ensures few { IfOk result (λ f. flanks_nodes (map flank_form f.items) < 2 ^ 23) }
{
    let Straight {
        fields,
        arrays,
        fresh,
        steps,
    } = steps;
    let count = arrays.len();
    let items = items_of(alloc, steps.into_vec(), count)?;
    Ok(Flanked {
        fields,
        arrays,
        fresh,
        items,
    })
}
