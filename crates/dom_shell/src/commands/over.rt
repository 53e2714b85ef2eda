ghost use Rattle.std.specs.Prelude.{◌≡◌, ℕ, ◌≤◌, None, List, [], ◌∷◌, IfOk, IfErr, OnOk, Ok, length};
ghost use Rattle.banzai_config.specs.Checked.{shape_with};
ghost use Rattle.banzai_config.specs.Parts.{parts_form};
ghost use Rattle.banzai_config.specs.Targets.{shape_of};
ghost use Rattle.config_text.specs.Fronts.{TextOf};
ghost use Rattle.dom_finding.specs.Command.{configs_named};
ghost use Rattle.dom_finding.specs.Finding.{IsFoundAfter, MayHold};
ghost use Rattle.dom_finding.specs.Stops.{AreKept, StopAfter};
ghost use Rattle.probe_taps.specs.Taps.{tap_forms};
ghost use Rattle.dom_shell.specs.Call.{report_of};
ghost use Rattle.dom_shell.specs.Ends.{IsEndAfter, IsTriedWithMemory, call_of, sent_as};
ghost use Rattle.dom_shell.specs.RunSetUp.{IsRunSetUp};
ghost use Rattle.dom_shell.specs.Tasks.{command_over, against, job_over};

use crate::commands::clock::{Prepared, traced};
use crate::commands::probe::put_probe;
use crate::commands::schedule::put_schedule;
use crate::commands::task::ConfigTask;
use crate::ending::{status_of, stopped};
use atom_traits::AtomTemplate;
use banzai_config::{Config, Parts, Target};
use dom_finding::{Stop, config_stop};
use dom_io::{Shelf, Sink};
use dom_report::{put_run_report, put_watch_report};
use dom_words::HashUnits;
use probe_taps::Tap;
use std::alloc::Global;

/// Clocks the configuration with these parts over the trace in the file of this name, if it is legal for a target with these
/// numbers.
pub(crate) fn over_on<
    T: AtomTemplate,
    const DEPTH: usize,
    const SL: usize,
    const SF: usize,
    const MUL: bool,
    F: Shelf,
    S: Sink,
    H: HashUnits,
>(
    alloc: Global,
    target: Target,
    what: ConfigTask<'_>,
    parts: Parts,
    trace: &str,
    shelf: &mut F,
    sink: &mut S,
    hash: &H,
    taps: Vec<Box<dyn Tap>>,
) -> u8
    requires depth { (1 ≤ DEPTH) × (DEPTH ≤ 65535) }
    requires stateless { (1 ≤ SL) × (SL ≤ 65535) }
    requires stateful { (1 ≤ SF) × (SF ≤ 65535) }
    requires shape { shape_of target ≡ shape_with T.fits T.CONST_BITS DEPTH SL SF MUL }
    ensures end { (name text : List ℕ) → TextOf target (parts_form parts) text → IsEndAfter (command_over what.entry (configs_named name trace.entry.now)) (text ∷ []) (call_of (H.meaning hash.now) (tap_forms (λ b. form b) taps.items) (F.content shelf.old) (F.faults shelf.old) (F.faults shelf.new) (sent_as result (S.held sink.old) (S.held sink.new) (S.faults sink.old) (S.faults sink.new))) }
    ensures files { (name : List ℕ) → F.content shelf.new name ≡ F.content shelf.old name }
{
    match prepare::<T, DEPTH, SL, SF, MUL, F>(alloc, target, what, parts, trace, shelf) {
        Ok(run) => put_over::<T, DEPTH, SL, SF, S, H>(alloc, what, run, hash, sink, taps),
        Err(stop) => stopped(alloc, stop, sink),
    }
}

// Asks whether the parts are legal and whether anything stands against the task, and reads the trace.
fn prepare<
    T: AtomTemplate,
    const DEPTH: usize,
    const SL: usize,
    const SF: usize,
    const MUL: bool,
    F: Shelf,
>(
    alloc: Global,
    target: Target,
    what: ConfigTask<'_>,
    parts: Parts,
    trace: &str,
    shelf: &mut F,
) -> Result<Prepared<T, DEPTH, SL, SF>, Stop>
    requires depth { (1 ≤ DEPTH) × (DEPTH ≤ 65535) }
    requires stateless { (1 ≤ SL) × (SL ≤ 65535) }
    requires stateful { (1 ≤ SF) × (SF ≤ 65535) }
    requires shape { shape_of target ≡ shape_with T.fits T.CONST_BITS DEPTH SL SF MUL }
    ensures set_up { IfOk result (λ run. IsRunSetUp run.machine run.lines run.trace run.entering run.leaving) }
    ensures stages { IfOk result (λ run. length run.machine.config.stages ≡ DEPTH) }
    ensures clear { IfOk result (λ run. against what.entry run.machine.config ≡ None) }
    ensures found { (name text : List ℕ) → TextOf target (parts_form parts) text → IfOk result (λ run. IsFoundAfter (MayHold (F.content shelf.old)) (command_over what.entry (configs_named name trace.entry.now)) (text ∷ []) (Ok (job_over what.entry run.machine.config run.trace))) }
    ensures stop { (name text : List ℕ) → TextOf target (parts_form parts) text → IfErr result (StopAfter (command_over what.entry (configs_named name trace.entry.now)) (text ∷ []) (F.content shelf.old) (F.faults shelf.old) (F.faults shelf.new)) }
    ensures kept { OnOk result (AreKept (F.faults shelf.old) (F.faults shelf.new)) }
    ensures files { (name : List ℕ) → F.content shelf.new name ≡ F.content shelf.old name }
{
    let config = match Config::<T>::checked::<DEPTH, SL, SF, MUL>(alloc, parts) {
        Ok(config) => config,
        Err(fault) => return Err(config_stop(fault)),
    };
    match what.against(&config) {
        Some(refusal) => Err(Stop::Refused(refusal)),
        None => traced::<T, DEPTH, SL, SF, F>(alloc, config, trace, shelf),
    }
}

// Puts what is asked for.
fn put_over<
    T: AtomTemplate,
    const DEPTH: usize,
    const SL: usize,
    const SF: usize,
    S: Sink,
    H: HashUnits,
>(
    alloc: Global,
    what: ConfigTask<'_>,
    mut run: Prepared<T, DEPTH, SL, SF>,
    hash: &H,
    sink: &mut S,
    taps: Vec<Box<dyn Tap>>,
) -> u8
    requires set_up { IsRunSetUp run.machine run.lines run.trace run.entering run.leaving }
    requires stages { length run.machine.config.stages ≡ DEPTH }
    requires clear { against what run.machine.config ≡ None }
    ensures { IsTriedWithMemory 0 (report_of (H.meaning hash.now) (tap_forms (λ b. form b) taps.items) (job_over what.entry run.machine.config run.trace)) (sent_as result (S.held sink.old) (S.held sink.new) (S.faults sink.old) (S.faults sink.new)) }
{
    match what {
        ConfigTask::Exec => status_of(put_run_report(
            &mut run.machine,
            &mut run.lines,
            &run.trace,
            &mut run.entering,
            &mut run.leaving,
            hash,
            sink,
        )),
        ConfigTask::Watch => {
            let lines = run.lines;
            status_of(put_watch_report(
                &mut run.machine,
                lines,
                &run.trace,
                &mut run.entering,
                &mut run.leaving,
                hash,
                sink,
            ))
        }
        ConfigTask::Probe(stage) => put_probe(alloc, stage, run, hash, sink, taps),
        ConfigTask::Schedule(ranking) => put_schedule(alloc, ranking, run, hash, sink),
    }
}
