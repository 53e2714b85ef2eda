ghost use Rattle.std.specs.Prelude.{◌≡◌, ℕ, ◌≤◌, List, [], ◌∷◌, IfOk, IfErr, OnOk, Ok, length};
ghost use Rattle.banzai_config.specs.Checked.{shape_with};
ghost use Rattle.banzai_config.specs.Legal.{LegalFor};
ghost use Rattle.banzai_config.specs.Parts.{parts_form};
ghost use Rattle.banzai_config.specs.Targets.{shape_of};
ghost use Rattle.config_text.specs.Fronts.{TextOf};
ghost use Rattle.dom_finding.specs.Command.{configs_named, elastic as elastic_of};
ghost use Rattle.dom_finding.specs.CommandForm.{configs_in};
ghost use Rattle.dom_finding.specs.Finding.{IsFoundAfter, MayHold, events_file as ask_events, queued};
ghost use Rattle.dom_finding.specs.Refusals.{refused_events, refused_trace};
ghost use Rattle.dom_finding.specs.Stops.{AreKept, FileStop, IsText, StopAfter, TextStop};
ghost use Rattle.probe_taps.specs.Taps.{TapForm, tap_forms};
ghost use Rattle.trace_text.specs.Events.{IsEventsOf};
ghost use Rattle.trace_text.specs.Trace.{IsTraceOf};
ghost use Rattle.dom_shell.specs.Ends.{IsEndAfter, call_of, sent_as};
ghost use Rattle.dom_report.specs.ElasticReport.{IsElasticReady};
ghost use Rattle.dom_shell.specs.Call.{queue_room};
ghost use Rattle.dom_shell.specs.QueuesSetUp.{AreEvents, CanQueue, EventsStop};

use crate::commands::targets::on_target;
use crate::commands::task::Task;
use crate::ending::{status_of, stopped};
use atom_traits::AtomTemplate;
use banzai_config::{Config, Parts, Target};
use dom_finding::{
    ConfigFiles, Stop, config_file, config_stop, events_file, events_of, packets_of, parts_in,
    text_in, trace_file,
};
use dom_io::{Shelf, Sink};
use dom_report::put_elastic_report;
use dom_words::{HashUnits, Packet};
use elastic_machine::Elastic;
use probe_taps::Tap;
use std::alloc::Global;
use trace_text::{Event, Lines, Trace};

// How many packets a queue holds.
const QUEUE_ROOM: usize = 4;

/// Runs the configuration in one file with queues in place of registers, over the trace and the events in two others.
pub(crate) fn elastic<F: Shelf, S: Sink, H: HashUnits>(
    alloc: Global,
    files: ConfigFiles<'_>,
    events: &str,
    shelf: &mut F,
    sink: &mut S,
    hash: &H,
    taps: Vec<Box<dyn Tap>>,
) -> u8
    ensures end { IsEndAfter (elastic_of (configs_in files.entry) events.entry.now) [] (call_of (H.meaning hash.now) (tap_forms (λ b. form b) taps.items) (F.content shelf.old) (F.faults shelf.old) (F.faults shelf.new) (sent_as result (S.held sink.old) (S.held sink.new) (S.faults sink.old) (S.faults sink.new))) }
    ensures files { (name : List ℕ) → F.content shelf.new name ≡ F.content shelf.old name }
{
    let text = match text_in(shelf, config_file(files.config)) {
        Ok(text) => text,
        Err(stop) => return stopped(alloc, stop, sink),
    };
    let bytes = text.as_slice();
    match parts_in(alloc, bytes) {
        Ok((target, parts)) => {
            let task = Task::Elastic {
                parts,
                trace: files.trace,
                events,
            };
            on_target(alloc, target, task, bytes, shelf, sink, hash, taps)
        }
        Err(stop) => stopped(alloc, stop, sink),
    }
}

// What a run with queues needs, all of it taken before the first line is put.
#[derive(Drop)]
struct Prepared<T: AtomTemplate, const DEPTH: usize, const SL: usize, const SF: usize> {
    elastic: Elastic<T, DEPTH, SL, SF, QUEUE_ROOM>,
    lines: Lines,
    trace: Trace,
    events: Vec<Event>,
    entering: Packet,
    leaving: Packet,
}

/// The same for parts that have been read, if they are legal for a target with these numbers.
pub(crate) fn elastic_on<
    T: AtomTemplate,
    const DEPTH: usize,
    const SL: usize,
    const SF: usize,
    const MUL: bool,
    F: Shelf,
    S: Sink,
    H: HashUnits,
>(
    alloc: Global,
    target: Target,
    parts: Parts,
    trace: &str,
    events: &str,
    shelf: &mut F,
    sink: &mut S,
    hash: &H,
) -> u8
    requires depth { (1 ≤ DEPTH) × (DEPTH ≤ 65535) }
    requires stateless { (1 ≤ SL) × (SL ≤ 65535) }
    requires stateful { (1 ≤ SF) × (SF ≤ 65535) }
    requires shape { shape_of target ≡ shape_with T.fits T.CONST_BITS DEPTH SL SF MUL }
    ensures end { (name text : List ℕ) (taps : List TapForm) → TextOf target (parts_form parts) text → IsEndAfter (elastic_of (configs_named name trace.entry.now) events.entry.now) (text ∷ []) (call_of (H.meaning hash.now) taps (F.content shelf.old) (F.faults shelf.old) (F.faults shelf.new) (sent_as result (S.held sink.old) (S.held sink.new) (S.faults sink.old) (S.faults sink.new))) }
    ensures files { (name : List ℕ) → F.content shelf.new name ≡ F.content shelf.old name }
{
    match prepare::<T, DEPTH, SL, SF, MUL, F>(alloc, target, parts, trace, events, shelf) {
        Ok(mut run) => status_of(put_elastic_report(
            &mut run.elastic,
            &mut run.lines,
            &run.trace,
            run.events.as_slice(),
            &mut run.entering,
            &mut run.leaving,
            hash,
            sink,
        )),
        Err(stop) => stopped(alloc, stop, sink),
    }
}

// Asks whether the parts are legal, and reads the trace and the events.
fn prepare<
    T: AtomTemplate,
    const DEPTH: usize,
    const SL: usize,
    const SF: usize,
    const MUL: bool,
    F: Shelf,
>(
    alloc: Global,
    target: Target,
    parts: Parts,
    trace: &str,
    events: &str,
    shelf: &mut F,
) -> Result<Prepared<T, DEPTH, SL, SF>, Stop>
    requires depth { (1 ≤ DEPTH) × (DEPTH ≤ 65535) }
    requires stateless { (1 ≤ SL) × (SL ≤ 65535) }
    requires stateful { (1 ≤ SF) × (SF ≤ 65535) }
    requires shape { shape_of target ≡ shape_with T.fits T.CONST_BITS DEPTH SL SF MUL }
    ensures set_up { IfOk result (λ run. IsElasticReady queue_room DEPTH run.elastic run.lines run.trace run.events.items run.entering run.leaving) }
    ensures found { (name text : List ℕ) → TextOf target (parts_form parts) text → IfOk result (λ run. IsFoundAfter (MayHold (F.content shelf.old)) (elastic_of (configs_named name trace.entry.now) events.entry.now) (text ∷ []) (Ok (queued run.elastic.config run.trace run.events.items))) }
    ensures stop { (name text : List ℕ) → TextOf target (parts_form parts) text → IfErr result (StopAfter (elastic_of (configs_named name trace.entry.now) events.entry.now) (text ∷ []) (F.content shelf.old) (F.faults shelf.old) (F.faults shelf.new)) }
    ensures kept { OnOk result (AreKept (F.faults shelf.old) (F.faults shelf.new)) }
    ensures files { (name : List ℕ) → F.content shelf.new name ≡ F.content shelf.old name }
{
    let config = match Config::<T>::checked::<DEPTH, SL, SF, MUL>(alloc, parts) {
        Ok(config) => config,
        Err(fault) => return Err(config_stop(fault)),
    };
    let text = match text_in(shelf, trace_file(trace)) {
        Ok(text) => text,
        Err(stop) => return Err(stop),
    };
    let packets = match packets_of(alloc, text.as_slice(), config.fields(), 0) {
        Ok(packets) => packets,
        Err(stop) => return Err(stop),
    };
    with_events::<T, DEPTH, SL, SF, F>(alloc, config, packets, events, shelf)
}

// Reads the events, and takes what a run of this configuration over these packets and them needs.
fn with_events<T: AtomTemplate, const DEPTH: usize, const SL: usize, const SF: usize, F: Shelf>(
    alloc: Global,
    config: Config<T>,
    trace: Trace,
    events: &str,
    shelf: &mut F,
) -> Result<Prepared<T, DEPTH, SL, SF>, Stop>
    requires ready { CanQueue T.fits T.CONST_BITS DEPTH SL SF config trace }
    ensures set_up { IfOk result (λ run. IsElasticReady queue_room DEPTH run.elastic run.lines run.trace run.events.items run.entering run.leaving) }
    ensures config { IfOk result (λ run. run.elastic.config ≡ config) }
    ensures trace { IfOk result (λ run. run.trace ≡ trace) }
    ensures events { IfOk result (λ run. AreEvents (F.content shelf.old) events.now config run.events.items) }
    ensures stop { IfErr result (EventsStop (F.content shelf.old) (F.faults shelf.old) (F.faults shelf.new) events.now config) }
    ensures kept { OnOk result (AreKept (F.faults shelf.old) (F.faults shelf.new)) }
    ensures files { (name : List ℕ) → F.content shelf.new name ≡ F.content shelf.old name }
{
    let text = match text_in(shelf, events_file(events)) {
        Ok(text) => text,
        Err(stop) => return Err(stop),
    };
    ready::<T, DEPTH, SL, SF>(alloc, config, trace, text.as_slice())
}

// What a run of this configuration over these packets and the events of a text needs.
fn ready<T: AtomTemplate, const DEPTH: usize, const SL: usize, const SF: usize>(
    alloc: Global,
    config: Config<T>,
    trace: Trace,
    text: &[u8],
) -> Result<Prepared<T, DEPTH, SL, SF>, Stop>
    requires ready { CanQueue T.fits T.CONST_BITS DEPTH SL SF config trace }
    requires text { length text.now ≤ 16777216 }
    ensures set_up { IfOk result (λ run. IsElasticReady queue_room DEPTH run.elastic run.lines run.trace run.events.items run.entering run.leaving) }
    ensures config { IfOk result (λ run. run.elastic.config ≡ config) }
    ensures trace { IfOk result (λ run. run.trace ≡ trace) }
    ensures events { IfOk result (λ run. IsEventsOf text.now (length config.stages) (Ok run.events.items)) }
    ensures stop { IfErr result (TextStop (IsEventsOf text.now (length config.stages)) refused_events) }
{
    let depth = config.stages() as u32;
    let events = match events_of(alloc, text, depth) {
        Ok(events) => events,
        Err(stop) => return Err(stop),
    };
    let count = config.fields().len();
    let lines = Lines::new(alloc, config.fields(), config.arrays(), config.containers())?;
    let entering = Packet::zeros(alloc, count)?;
    let leaving = Packet::zeros(alloc, count)?;
    let elastic = Elastic::<T, DEPTH, SL, SF, QUEUE_ROOM>::new(alloc, config)?;
    Ok(Prepared {
        elastic,
        lines,
        trace,
        events,
        entering,
        leaving,
    })
}
