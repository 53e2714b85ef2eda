ghost use Rattle.std.specs.Prelude.{◌≡◌, ℕ, ◌≤◌, List, [], IfOk, IfErr, OnOk, Ok, length};
ghost use Rattle.trace_text.specs.Trace.{IsTraceOf};
ghost use Rattle.dom_ast.specs.CheckedForm.{checked_form};
ghost use Rattle.dom_ast.specs.declared.checked.Checked.{Checked};
ghost use Rattle.dom_finding.specs.Command.{serial as serial_of};
ghost use Rattle.dom_finding.specs.CommandForm.{names_in};
ghost use Rattle.dom_finding.specs.Finding.{IsFoundAfter, MayHold, in_turn};
ghost use Rattle.dom_finding.specs.Refusals.{refused_trace};
ghost use Rattle.dom_finding.specs.Stops.{AreKept, StopAfter, TextStop};
ghost use Rattle.probe_taps.specs.Taps.{TapForm};
ghost use Rattle.dom_shell.specs.Ends.{IsEndAfter, call_of, sent_as};
ghost use Rattle.dom_shell.specs.SerialSetUp.{IsSerialSetUp};

use crate::ending::{status_of, stopped};
use dom_ast::{Checked, SerialRun};
use dom_finding::{Files, Stop, packets_of, program_file, program_in, text_in, trace_file};
use dom_io::{Shelf, Sink};
use dom_report::put_serial_report;
use dom_words::{HashUnits, Packet};
use std::alloc::Global;
use trace_text::{Lines, Trace};

// What a serial run needs, all of it taken before the first line is put.
#[derive(Drop)]
struct Prepared {
    run: SerialRun,
    lines: Lines,
    trace: Trace,
    packet: Packet,
}

/// Runs the program serially over the trace.
pub(crate) fn serial<F: Shelf, S: Sink, H: HashUnits>(
    alloc: Global,
    files: Files<'_>,
    shelf: &mut F,
    sink: &mut S,
    hash: &H,
) -> u8
    ensures end { (taps : List TapForm) → IsEndAfter (serial_of (names_in files.entry)) [] (call_of (H.meaning hash.now) taps (F.content shelf.old) (F.faults shelf.old) (F.faults shelf.new) (sent_as result (S.held sink.old) (S.held sink.new) (S.faults sink.old) (S.faults sink.new))) }
    ensures files { (name : List ℕ) → F.content shelf.new name ≡ F.content shelf.old name }
{
    match prepare(alloc, files, shelf) {
        Ok(mut s) => {
            let put = put_serial_report(
                &mut s.run,
                &mut s.lines,
                &s.trace,
                &mut s.packet,
                hash,
                sink,
            );
            status_of(put)
        }
        Err(stop) => stopped(alloc, stop, sink),
    }
}

// Reads the program, and then the trace.
fn prepare<F: Shelf>(alloc: Global, files: Files<'_>, shelf: &mut F) -> Result<Prepared, Stop>
    ensures found { IfOk result (λ s. (p : Checked) × IsSerialSetUp p s.run s.lines s.trace s.packet × IsFoundAfter (MayHold (F.content shelf.old)) (serial_of (names_in files.entry)) [] (Ok (in_turn (checked_form p) s.trace))) }
    ensures stop { IfErr result (StopAfter (serial_of (names_in files.entry)) [] (F.content shelf.old) (F.faults shelf.old) (F.faults shelf.new)) }
    ensures kept { OnOk result (AreKept (F.faults shelf.old) (F.faults shelf.new)) }
    ensures files { (name : List ℕ) → F.content shelf.new name ≡ F.content shelf.old name }
{
    let text = match text_in(shelf, program_file(files.program)) {
        Ok(text) => text,
        Err(stop) => return Err(stop),
    };
    let program = match program_in(alloc, text.as_slice()) {
        Ok(program) => program,
        Err(stop) => return Err(stop),
    };
    let trace = match text_in(shelf, trace_file(files.trace)) {
        Ok(trace) => trace,
        Err(stop) => return Err(stop),
    };
    ready(alloc, program, trace.as_slice())
}

// What a serial run of this program over a trace with this text needs.
fn ready(alloc: Global, program: Checked, text: &[u8]) -> Result<Prepared, Stop>
    requires { length text.now ≤ 16777216 }
    ensures set_up { IfOk result (λ s. IsSerialSetUp program s.run s.lines s.trace s.packet) }
    ensures packets { IfOk result (λ s. IsTraceOf text.now program.fields 0 (Ok s.trace)) }
    ensures stop { IfErr result (TextStop (IsTraceOf text.now program.fields 0) refused_trace) }
{
    let trace = match packets_of(alloc, text, program.fields(), 0) {
        Ok(trace) => trace,
        Err(stop) => return Err(stop),
    };
    let lines = Lines::new(alloc, program.fields(), program.arrays(), 0)?;
    let packet = Packet::zeros(alloc, program.fields().len())?;
    let run = SerialRun::new(alloc, program)?;
    Ok(Prepared {
        run,
        lines,
        trace,
        packet,
    })
}
