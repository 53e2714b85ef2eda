ghost use Rattle.std.specs.Prelude.{◌≡◌, ℕ, ◌≤◌, true, List, IfOk, IfErr, OnOk, Ok, length};
ghost use Rattle.banzai_config.specs.Checked.{shape_with};
ghost use Rattle.banzai_config.specs.Legal.{LegalFor};
ghost use Rattle.dom_finding.specs.Finding.{trace_file as ask_trace};
ghost use Rattle.dom_finding.specs.Refusals.{refused_trace};
ghost use Rattle.dom_finding.specs.Stops.{AreKept, TextStop, TraceStop};
ghost use Rattle.dom_shell.specs.RunSetUp.{IsRunSetUp, IsTraced};
ghost use Rattle.trace_text.specs.Trace.{IsTraceOf};

use atom_traits::AtomTemplate;
use banzai_config::Config;
use banzai_machine::Machine;
use dom_finding::{Stop, packets_of, text_in, trace_file};
use dom_io::Shelf;
use dom_words::Packet;
use std::alloc::Global;
use trace_text::{Lines, Trace};

/// What a run needs, all of it taken before the first line is put.
#[derive(Drop)]
pub(crate) struct Prepared<T: AtomTemplate, const DEPTH: usize, const SL: usize, const SF: usize> {
    pub(crate) machine: Machine<T, DEPTH, SL, SF>,
    pub(crate) lines: Lines,
    pub(crate) trace: Trace,
    pub(crate) entering: Packet,
    pub(crate) leaving: Packet,
}

/// Reads the trace in the file of this name, and takes what a run of this configuration over it needs.
pub(crate) fn traced<
    T: AtomTemplate,
    const DEPTH: usize,
    const SL: usize,
    const SF: usize,
    F: Shelf,
>(
    alloc: Global,
    config: Config<T>,
    trace: &str,
    shelf: &mut F,
) -> Result<Prepared<T, DEPTH, SL, SF>, Stop>
    requires depth { (1 ≤ DEPTH) × (DEPTH ≤ 65535) }
    requires stages { length config.stages ≡ DEPTH }
    requires legal { LegalFor (shape_with T.fits T.CONST_BITS DEPTH SL SF true) config }
    ensures set_up { IfOk result (λ run. IsRunSetUp run.machine run.lines run.trace run.entering run.leaving) }
    ensures config { IfOk result (λ run. run.machine.config ≡ config) }
    ensures trace { IfOk result (λ run. IsTraced (F.content shelf.old) trace.now config run.trace) }
    ensures stop { IfErr result (TraceStop (F.content shelf.old) (F.faults shelf.old) (F.faults shelf.new) (ask_trace trace.now) config.fields (length config.stages)) }
    ensures kept { OnOk result (AreKept (F.faults shelf.old) (F.faults shelf.new)) }
    ensures files { (name : List ℕ) → F.content shelf.new name ≡ F.content shelf.old name }
{
    let text = match text_in(shelf, trace_file(trace)) {
        Ok(text) => text,
        Err(stop) => return Err(stop),
    };
    ready::<T, DEPTH, SL, SF>(alloc, config, text.as_slice())
}

// What a run of this configuration over a trace with this text needs.
fn ready<T: AtomTemplate, const DEPTH: usize, const SL: usize, const SF: usize>(
    alloc: Global,
    config: Config<T>,
    text: &[u8],
) -> Result<Prepared<T, DEPTH, SL, SF>, Stop>
    requires depth { (1 ≤ DEPTH) × (DEPTH ≤ 65535) }
    requires stages { length config.stages ≡ DEPTH }
    requires legal { LegalFor (shape_with T.fits T.CONST_BITS DEPTH SL SF true) config }
    requires text { length text.now ≤ 16777216 }
    ensures set_up { IfOk result (λ run. IsRunSetUp run.machine run.lines run.trace run.entering run.leaving) }
    ensures config { IfOk result (λ run. run.machine.config ≡ config) }
    ensures packets { IfOk result (λ run. IsTraceOf text.now config.fields (length config.stages) (Ok run.trace)) }
    ensures stop { IfErr result (TextStop (IsTraceOf text.now config.fields (length config.stages)) refused_trace) }
{
    let depth = config.stages() as u32;
    let trace = match packets_of(alloc, text, config.fields(), depth) {
        Ok(trace) => trace,
        Err(stop) => return Err(stop),
    };
    let count = config.fields().len();
    let lines = Lines::new(alloc, config.fields(), config.arrays(), config.containers())?;
    let entering = Packet::zeros(alloc, count)?;
    let leaving = Packet::zeros(alloc, count)?;
    let machine = Machine::<T, DEPTH, SL, SF>::new(alloc, config)?;
    Ok(Prepared {
        machine,
        lines,
        trace,
        entering,
        leaving,
    })
}
