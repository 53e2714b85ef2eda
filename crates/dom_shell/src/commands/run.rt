ghost use Rattle.std.specs.Prelude.{◌≡◌, ℕ, ◌≤◌, List, [], ◌∷◌, IfOk, IfErr, OnOk, Ok, length};
ghost use Rattle.banzai_config.specs.Checked.{shape_with};
ghost use Rattle.banzai_config.specs.Targets.{shape_of};
ghost use Rattle.dom_finding.specs.Command.{files_named, run as run_of};
ghost use Rattle.dom_finding.specs.Finding.{IsFoundAfter, MayHold, clocked};
ghost use Rattle.dom_finding.specs.Stops.{AreKept, StopAfter};
ghost use Rattle.probe_taps.specs.Taps.{TapForm};
ghost use Rattle.dom_shell.specs.Ends.{IsEndAfter, call_of, sent_as};
ghost use Rattle.dom_shell.specs.RunSetUp.{IsRunSetUp};

use crate::commands::clock::{Prepared, traced};
use crate::ending::{status_of, stopped};
use atom_traits::AtomTemplate;
use banzai_config::Target;
use dom_finding::{Stop, compile_stop};
use dom_io::{Shelf, Sink};
use dom_report::put_run_report;
use dom_words::HashUnits;
use std::alloc::Global;

/// Compiles a program with this text for a target with these numbers, and clocks the configuration over the trace in the
/// file of this name.
pub(crate) fn run_on<
    T: AtomTemplate,
    const DEPTH: usize,
    const SL: usize,
    const SF: usize,
    const MUL: bool,
    F: Shelf,
    S: Sink,
    H: HashUnits,
>(
    alloc: Global,
    target: Target,
    text: &[u8],
    trace: &str,
    shelf: &mut F,
    sink: &mut S,
    hash: &H,
) -> u8
    requires text { length text.now ≤ 65536 }
    requires depth { (1 ≤ DEPTH) × (DEPTH ≤ 65535) }
    requires stateless { (1 ≤ SL) × (SL ≤ 65535) }
    requires stateful { (1 ≤ SF) × (SF ≤ 65535) }
    requires shape { shape_of target ≡ shape_with T.fits T.CONST_BITS DEPTH SL SF MUL }
    ensures end { (name : List ℕ) (taps : List TapForm) → IsEndAfter (run_of target (files_named name trace.entry.now)) (text.now ∷ []) (call_of (H.meaning hash.now) taps (F.content shelf.old) (F.faults shelf.old) (F.faults shelf.new) (sent_as result (S.held sink.old) (S.held sink.new) (S.faults sink.old) (S.faults sink.new))) }
    ensures files { (name : List ℕ) → F.content shelf.new name ≡ F.content shelf.old name }
{
    match prepare::<T, DEPTH, SL, SF, MUL, F>(alloc, target, text, trace, shelf) {
        Ok(mut run) => {
            let put = put_run_report(
                &mut run.machine,
                &mut run.lines,
                &run.trace,
                &mut run.entering,
                &mut run.leaving,
                hash,
                sink,
            );
            status_of(put)
        }
        Err(stop) => stopped(alloc, stop, sink),
    }
}

// Compiles the program, and reads the trace.
fn prepare<
    T: AtomTemplate,
    const DEPTH: usize,
    const SL: usize,
    const SF: usize,
    const MUL: bool,
    F: Shelf,
>(
    alloc: Global,
    target: Target,
    text: &[u8],
    trace: &str,
    shelf: &mut F,
) -> Result<Prepared<T, DEPTH, SL, SF>, Stop>
    requires text { length text.now ≤ 65536 }
    requires depth { (1 ≤ DEPTH) × (DEPTH ≤ 65535) }
    requires stateless { (1 ≤ SL) × (SL ≤ 65535) }
    requires stateful { (1 ≤ SF) × (SF ≤ 65535) }
    requires shape { shape_of target ≡ shape_with T.fits T.CONST_BITS DEPTH SL SF MUL }
    ensures set_up { IfOk result (λ run. IsRunSetUp run.machine run.lines run.trace run.entering run.leaving) }
    ensures found { (name : List ℕ) → IfOk result (λ run. IsFoundAfter (MayHold (F.content shelf.old)) (run_of target (files_named name trace.entry.now)) (text.now ∷ []) (Ok (clocked run.machine.config run.trace))) }
    ensures stop { (name : List ℕ) → IfErr result (StopAfter (run_of target (files_named name trace.entry.now)) (text.now ∷ []) (F.content shelf.old) (F.faults shelf.old) (F.faults shelf.new)) }
    ensures kept { OnOk result (AreKept (F.faults shelf.old) (F.faults shelf.new)) }
    ensures files { (name : List ℕ) → F.content shelf.new name ≡ F.content shelf.old name }
{
    let config = match dom_compile::compile::<T, DEPTH, SL, SF, MUL>(alloc, text) {
        Ok(config) => config,
        Err(fault) => return Err(compile_stop(fault)),
    };
    traced::<T, DEPTH, SL, SF, F>(alloc, config, trace, shelf)
}
