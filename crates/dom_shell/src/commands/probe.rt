ghost use Rattle.std.specs.Prelude.{◌≡◌, ◌≤◌, IfOk, length};
ghost use Rattle.dom_finding.specs.Finding.{tapped as job_of};
ghost use Rattle.dom_io.specs.Causes.{HasCause};
ghost use Rattle.dom_io.specs.Held.{Puts};
ghost use Rattle.dom_report.specs.ProbeReport.{attached_at, probe_report};
ghost use Rattle.dom_shell.specs.Call.{report_of};
ghost use Rattle.dom_shell.specs.Ends.{IsTriedWithMemory, sent_as};
ghost use Rattle.dom_shell.specs.RunSetUp.{IsRunSetUp};
ghost use Rattle.probe_taps.specs.Attached.{attached_forms};
ghost use Rattle.probe_taps.specs.Taps.{tap_forms};
ghost use Rattle.trace_text.specs.Trace.{entries};

use crate::commands::clock::Prepared;
use crate::ending::{status_of, stopped};
use atom_traits::AtomTemplate;
use dom_finding::{Stage, Stop};
use dom_io::{Sink, SinkFault};
use dom_report::put_probe_report;
use dom_words::{HashUnits, Memory, Packet};
use probe_taps::{Tap, Tapped};
use std::alloc::Global;
use trace_text::{Lines, Trace};

// What a run under taps needs, all of it taken before the first line is put.
#[derive(Drop)]
struct Probing<T: AtomTemplate, const DEPTH: usize, const SL: usize, const SF: usize> {
    tapped: Tapped<T, DEPTH, SL, SF>,
    lines: Lines,
    trace: Trace,
    entering: Packet,
    leaving: Packet,
}

/// Attaches the taps before a stage, and puts the report of the run under them. All of them are attached before the first line
/// is put.
pub(crate) fn put_probe<
    T: AtomTemplate,
    const DEPTH: usize,
    const SL: usize,
    const SF: usize,
    S: Sink,
    H: HashUnits,
>(
    alloc: Global,
    stage: Stage,
    run: Prepared<T, DEPTH, SL, SF>,
    hash: &H,
    sink: &mut S,
    taps: Vec<Box<dyn Tap>>,
) -> u8
    requires set_up { IsRunSetUp run.machine run.lines run.trace run.entering run.leaving }
    requires within { stage.number ≤ DEPTH }
    ensures { IsTriedWithMemory 0 (report_of (H.meaning hash.now) (tap_forms (λ b. form b) taps.items) (job_of stage.number run.machine.config run.trace)) (sent_as result (S.held sink.old) (S.held sink.new) (S.faults sink.old) (S.faults sink.new)) }
{
    let count = taps.len();
    match attached(alloc, stage, run, taps) {
        Ok(probing) => status_of(put_tapped(probing, count, hash, sink)),
        Err(Memory) => stopped(alloc, Stop::Memory, sink),
    }
}

// The same run with these taps, each of them before the stage.
fn attached<T: AtomTemplate, const DEPTH: usize, const SL: usize, const SF: usize>(
    alloc: Global,
    stage: Stage,
    run: Prepared<T, DEPTH, SL, SF>,
    taps: Vec<Box<dyn Tap>>,
) -> Result<Probing<T, DEPTH, SL, SF>, Memory>
    requires set_up { IsRunSetUp run.machine run.lines run.trace run.entering run.leaving }
    requires within { stage.number ≤ DEPTH }
    ensures set_up { IfOk result (λ p. IsRunSetUp p.tapped.machine p.lines p.trace p.entering p.leaving) }
    ensures machine { IfOk result (λ p. p.tapped.machine ≡ run.machine) }
    ensures trace { IfOk result (λ p. p.trace ≡ run.trace) }
    ensures cycle { IfOk result (λ p. p.tapped.cycle ≡ 0) }
    ensures taps { IfOk result (λ p. attached_forms (λ b. form b) p.tapped.taps.items ≡ attached_at stage.number (tap_forms (λ b. form b) taps.items)) }
{
    let Prepared {
        machine,
        lines,
        trace,
        entering,
        leaving,
    } = run;
    let mut tapped = Tapped::new(alloc, machine);
    for tap in taps {
        if let Err((_, memory)) = tapped.attach(stage.number, tap) {
            return Err(memory);
        }
    }
    Ok(Probing {
        tapped,
        lines,
        trace,
        entering,
        leaving,
    })
}

// Puts the report of the run under its taps, of which there are so many.
fn put_tapped<
    T: AtomTemplate,
    const DEPTH: usize,
    const SL: usize,
    const SF: usize,
    S: Sink,
    H: HashUnits,
>(
    mut probing: Probing<T, DEPTH, SL, SF>,
    count: usize,
    hash: &H,
    sink: &mut S,
) -> Result<(), SinkFault>
    requires set_up { IsRunSetUp probing.tapped.machine probing.lines probing.trace probing.entering probing.leaving }
    requires cycle { probing.tapped.cycle ≡ 0 }
    requires count { count ≡ length probing.tapped.taps.items }
    ensures bytes { Puts (S.held sink.old) (S.held sink.new) (probe_report (H.meaning hash.now) (attached_forms (λ b. form (b.vtable, b.value)) probing.tapped.taps.items) probing.tapped.machine.config (entries probing.trace)) result }
    ensures cause { HasCause (S.faults sink.old) (S.faults sink.new) result }
{
    put_probe_report(
        &mut probing.tapped,
        count,
        &mut probing.lines,
        &probing.trace,
        &mut probing.entering,
        &mut probing.leaving,
        hash,
        sink,
    )
}
