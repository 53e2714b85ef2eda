ghost use Rattle.std.specs.Prelude.{◌≡◌, ◌<◌, All, IfErr, IfOk, Ok, OnOk, Some, ◌++◌, length, map, slice_get};
ghost use Rattle.trace_text.specs.Lines.{after_commas, count_text};
ghost use Rattle.plan_check.specs.HandFaults.{number_at};
ghost use Rattle.plan_check.specs.PlanText.{IsPlanAnswer};
ghost use Rattle.dom_finding.specs.Files.{ask_of};
ghost use Rattle.dom_finding.specs.Finding.{plan_file as ask_plan};
ghost use Rattle.dom_finding.specs.Listing.{codelet_line, codelets_text as text_of_codelets};
ghost use Rattle.dom_finding.specs.Refusals.{refused_hand, refused_plan};
ghost use Rattle.dom_finding.specs.Stops.{TextStop, plan_stop};

use crate::reading::Stop;
use crate::refusals::{Refusal, kind_word, push_number, push_word};
use crate::wanted::WantedFile;
use codelets::{Codelet, Codelets};
use dom_words::Memory;
use plan_check::{HandFault, HandPlan, PlanTextFault, read_plan};
use std::alloc::Global;

// The most bytes that a plan may have.
const MOST_PLAN_BYTES: usize = 65536;

/// The file of a plan, of at most 65,536 bytes.
pub fn plan_file(name: &str) -> WantedFile<'_>
    ensures { ask_of result ≡ ask_plan name.entry.now }
{
    WantedFile {
        name,
        most: MOST_PLAN_BYTES,
        over: Refusal::PlanLimit,
    }
}

/// The plan of a text for these codelets and a pipeline of this depth.
pub fn plan_in(
    alloc: Global,
    text: &[u8],
    codelets: &Codelets,
    depth: u32,
) -> Result<HandPlan, Stop>
    ensures plan { IfOk result (λ plan. IsPlanAnswer depth codelets.now.list text.now (Ok plan)) }
    ensures stop { IfErr result (TextStop (IsPlanAnswer depth codelets.now.list text.now) refused_plan) }
{
    match read_plan(alloc, text, codelets, depth) {
        Ok(plan) => Ok(plan),
        Err(fault) => Err(stop_of_plan(fault)),
    }
}

// Why a fault of a plan's text stops a command.
fn stop_of_plan(fault: PlanTextFault) -> Stop
    ensures { result ≡ plan_stop fault }
{
    match fault {
        PlanTextFault::Line(n) => Stop::Refused(Refusal::PlanLine(n)),
        PlanTextFault::Memory => Stop::Memory,
    }
}

/// Why a plan that is not lawful is refused.
pub fn plan_refusal(fault: HandFault) -> Refusal
    ensures { result ≡ refused_hand fault }
{
    match fault {
        HandFault::Early { codelet, used } => Refusal::PlanEarly { codelet, used },
        HandFault::Wide { stage, kind } => Refusal::PlanWide { stage, kind },
    }
}

/// The text of codelets, a line for each.
pub fn codelets_text(alloc: Global, codelets: &Codelets) -> Result<Vec<u8>, Memory>
    ensures { IfOk result (λ text. text.items ≡ text_of_codelets codelets.now.list) }
{
    let mut text = Vec::new(alloc);
    let list = codelets.list();
    'codelets: for k in 0..list.len() {
        push_codelet(&mut text, list, codelet_at(list, k))?;
    }
    Ok(text)
}

// The codelet at a position.
fn codelet_at(list: &[Codelet], k: usize) -> &Codelet
    requires { k < length list.now }
    ensures { slice_get list.now k ≡ Some result.now }
{
    &list[k]
}

// The line of a codelet at the end of a text.
fn push_codelet(text: &mut Vec<u8>, list: &[Codelet], codelet: &Codelet) -> Result<(), Memory>
    requires { All (λ u. u < length list.now) codelet.now.uses }
    ensures { OnOk result (text.new.items ≡ text.old.items ++ codelet_line list.now codelet.now) }
{
    text.extend_from_slice(b"codelet").map_err(|_| Memory)?;
    push_number(text, u64::from(codelet.first))?;
    push_number(text, u64::from(codelet.level))?;
    push_word(text, kind_word(codelet.kind))?;
    push_uses(text, list, codelet.uses.as_slice())?;
    text.push(b'\n').map_err(|_| Memory)
}

// The least statement numbers of codelets at these positions, each after a comma.
fn push_uses(text: &mut Vec<u8>, list: &[Codelet], uses: &[u32]) -> Result<(), Memory>
    requires { All (λ u. u < length list.now) uses.now }
    ensures { OnOk result (text.new.items ≡ text.old.items ++ after_commas (map (λ u. count_text (number_at list.now u)) uses.now)) }
{
    for used in uses {
        push_number(text, u64::from(list[*used as usize].first))?;
    }
    Ok(())
}
