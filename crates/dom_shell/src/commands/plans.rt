ghost use Rattle.std.specs.Prelude.{◌≡◌, ℕ, ◌≤◌, List, [], ◌∷◌, Option, IfOk, IfErr, OnOk, Ok, length, map};
ghost use Rattle.atom_match.specs.Atoms.{atom_form};
ghost use Rattle.banzai_config.specs.Checked.{shape_with};
ghost use Rattle.banzai_config.specs.Targets.{shape_of};
ghost use Rattle.codelets.specs.declared.codelet.Codelet.{Codelet};
ghost use Rattle.dom_finding.specs.Command.{codelets as codelets_of, planned as planned_of};
ghost use Rattle.dom_finding.specs.Finding.{GivesByPlan, IsFoundAfter, IsFrontFor, MayHold, found as found_next, written as written_job};
ghost use Rattle.dom_finding.specs.Listing.{codelets_text as text_of_codelets};
ghost use Rattle.dom_finding.specs.Refusals.{refused_compile};
ghost use Rattle.dom_finding.specs.Stops.{AreKept, StopAfter, TextStop};
ghost use Rattle.dom_words.specs.State.{Hash};
ghost use Rattle.probe_taps.specs.Taps.{TapForm};
ghost use Rattle.dom_shell.specs.Ends.{IsEndAfter, call_of, sent_as};
ghost use Rattle.dom_shell.specs.Planned.{CanPlan, PlanStop};

use crate::ending::{status_of, stopped};
use atom_match::Atoms;
use atom_traits::AtomTemplate;
use banzai_config::Target;
use codelets::Codelets;
use config_text::write_config;
use dom_compile::front;
use dom_finding::{Stop, codelets_text, compile_stop, plan_file, plan_in, plan_refusal, text_in};
use dom_io::{Shelf, Sink};
use dom_report::put_text;
use plan_check::{accept, configure};
use std::alloc::Global;

/// Puts the codelets of a program with this text for a target with these numbers.
pub(crate) fn codelets_on<
    T: AtomTemplate,
    const DEPTH: usize,
    const SL: usize,
    const SF: usize,
    const MUL: bool,
    S: Sink,
>(alloc: Global, target: Target, text: &[u8], sink: &mut S) -> u8
    requires text { length text.now ≤ 65536 }
    requires shape { shape_of target ≡ shape_with T.fits T.CONST_BITS DEPTH SL SF MUL }
    ensures { (name : List ℕ) (hash : Hash) (taps : List TapForm) (files : List ℕ → Option (List ℕ)) (unread : List ℕ → ℕ) → IsEndAfter (codelets_of target name) (text.now ∷ []) (call_of hash taps files unread unread (sent_as result (S.held sink.old) (S.held sink.new) (S.faults sink.old) (S.faults sink.new))) }
{
    match listed::<T, DEPTH, SL, SF, MUL>(alloc, target, text) {
        Ok(written) => status_of(put_text(written.as_slice(), sink)),
        Err(stop) => stopped(alloc, stop, sink),
    }
}

// The text of the codelets of a program with this text.
fn listed<T: AtomTemplate, const DEPTH: usize, const SL: usize, const SF: usize, const MUL: bool>(
    alloc: Global,
    target: Target,
    text: &[u8],
) -> Result<Vec<u8>, Stop>
    requires text { length text.now ≤ 65536 }
    requires shape { shape_of target ≡ shape_with T.fits T.CONST_BITS DEPTH SL SF MUL }
    ensures written { IfOk result (λ written. (list : List Codelet) × IsFrontFor target text.now (Ok list) × (written.items ≡ text_of_codelets list)) }
    ensures stop { IfErr result (TextStop (IsFrontFor target text.now) refused_compile) }
{
    let (codelets, _atoms) = match front::<T, MUL>(alloc, text) {
        Ok(found) => found,
        Err(fault) => return Err(compile_stop(fault)),
    };
    Ok(codelets_text(alloc, &codelets)?)
}

/// Puts the configuration of a program with this text for a target with these numbers, by the plan in the file of this name.
pub(crate) fn planned_on<
    T: AtomTemplate,
    const DEPTH: usize,
    const SL: usize,
    const SF: usize,
    const MUL: bool,
    F: Shelf,
    S: Sink,
>(alloc: Global, target: Target, text: &[u8], plan: &str, shelf: &mut F, sink: &mut S) -> u8
    requires text { length text.now ≤ 65536 }
    requires depth { (1 ≤ DEPTH) × (DEPTH ≤ 65535) }
    requires stateless { (1 ≤ SL) × (SL ≤ 65535) }
    requires stateful { (1 ≤ SF) × (SF ≤ 65535) }
    requires shape { shape_of target ≡ shape_with T.fits T.CONST_BITS DEPTH SL SF MUL }
    ensures end { (name : List ℕ) (hash : Hash) (taps : List TapForm) → IsEndAfter (planned_of target name plan.entry.now) (text.now ∷ []) (call_of hash taps (F.content shelf.old) (F.faults shelf.old) (F.faults shelf.new) (sent_as result (S.held sink.old) (S.held sink.new) (S.faults sink.old) (S.faults sink.new))) }
    ensures files { (name : List ℕ) → F.content shelf.new name ≡ F.content shelf.old name }
{
    match planned::<T, DEPTH, SL, SF, MUL, F>(alloc, target, text, plan, shelf) {
        Ok(written) => status_of(put_text(written.as_slice(), sink)),
        Err(stop) => stopped(alloc, stop, sink),
    }
}

// The text of the configuration, once the plan has been read.
fn planned<
    T: AtomTemplate,
    const DEPTH: usize,
    const SL: usize,
    const SF: usize,
    const MUL: bool,
    F: Shelf,
>(alloc: Global, target: Target, text: &[u8], plan: &str, shelf: &mut F) -> Result<Vec<u8>, Stop>
    requires text { length text.now ≤ 65536 }
    requires depth { (1 ≤ DEPTH) × (DEPTH ≤ 65535) }
    requires stateless { (1 ≤ SL) × (SL ≤ 65535) }
    requires stateful { (1 ≤ SF) × (SF ≤ 65535) }
    requires shape { shape_of target ≡ shape_with T.fits T.CONST_BITS DEPTH SL SF MUL }
    ensures found { (name : List ℕ) → IfOk result (λ written. IsFoundAfter (MayHold (F.content shelf.old)) (planned_of target name plan.entry.now) (text.now ∷ []) (Ok (written_job written.items))) }
    ensures stop { (name : List ℕ) → IfErr result (StopAfter (planned_of target name plan.entry.now) (text.now ∷ []) (F.content shelf.old) (F.faults shelf.old) (F.faults shelf.new)) }
    ensures kept { OnOk result (AreKept (F.faults shelf.old) (F.faults shelf.new)) }
    ensures files { (name : List ℕ) → F.content shelf.new name ≡ F.content shelf.old name }
{
    let (codelets, atoms) = match front::<T, MUL>(alloc, text) {
        Ok(found) => found,
        Err(fault) => return Err(compile_stop(fault)),
    };
    let lines = match text_in(shelf, plan_file(plan)) {
        Ok(lines) => lines,
        Err(stop) => return Err(stop),
    };
    by_plan::<T, DEPTH, SL, SF, MUL>(alloc, target, &codelets, &atoms, lines.as_slice())
}

// The text of the configuration of codelets with these atoms, by a plan with this text.
fn by_plan<T: AtomTemplate, const DEPTH: usize, const SL: usize, const SF: usize, const MUL: bool>(
    alloc: Global,
    target: Target,
    codelets: &Codelets,
    atoms: &Atoms<T>,
    text: &[u8],
) -> Result<Vec<u8>, Stop>
    requires can { CanPlan T.fits DEPTH SL SF MUL codelets.now (map (atom_form T.trees_of) atoms.now.list) }
    requires shape { shape_of target ≡ shape_with T.fits T.CONST_BITS DEPTH SL SF MUL }
    ensures written { IfOk result (λ written. GivesByPlan target codelets.now (map (atom_form T.trees_of) atoms.now.list) text.now (found_next (Ok (written_job written.items)))) }
    ensures stop { IfErr result (PlanStop target codelets.now (map (atom_form T.trees_of) atoms.now.list) text.now) }
{
    let plan = match plan_in(alloc, text, codelets, DEPTH as u32) {
        Ok(plan) => plan,
        Err(stop) => return Err(stop),
    };
    if let Err(fault) = accept::<DEPTH, SL, SF>(codelets, &plan) {
        return Err(Stop::Refused(plan_refusal(fault)));
    }
    let config = configure::<T, DEPTH, SL, SF, MUL>(alloc, codelets, atoms, &plan)?;
    Ok(write_config(alloc, &config, target)?)
}
