ghost use Rattle.std.specs.Prelude.{◌≡◌, ◌+◌, ◌<◌, ◌≤◌, ◌++◌, All, OnErr, OnOk, length, map};
ghost use Rattle.dom_io.specs.Causes.{HasCause};
ghost use Rattle.dom_io.specs.Held.{IsPart, Puts};
ghost use Rattle.dom_words.specs.State.{array_of, started};
ghost use Rattle.trace_text.specs.Lines.{name_at};
ghost use Rattle.dom_ast.specs.CheckedForm.{checked_form};
ghost use Rattle.dom_ast.specs.Resolved.{bodies_form};
ghost use Rattle.trace_text.specs.Lines.{joined};
ghost use Rattle.dom_report.specs.SerialReport.{array_lines, serial_report, state_lines, word_lines};
ghost use Rattle.dom_report.specs.Turns.{RanInTurn, lines_in_turn};

use dom_ast::SerialRun;
use dom_io::{Sink, SinkFault};
use dom_words::{HashUnits, Packet};
use trace_text::{Lines, Trace};

/// Runs the program on the packets of the trace, one after another, and puts the report, one line a put. Takes no memory.
pub fn put_serial_report<S: Sink, H: HashUnits>(
    run: &mut SerialRun,
    lines: &mut Lines,
    trace: &Trace,
    packet: &mut Packet,
    hash: &H,
    sink: &mut S,
) -> Result<(), SinkFault>
    requires words { length run.old.program.fields ≤ lines.old.words }
    requires fields { lines.old.fields ≡ run.old.program.fields }
    requires arrays { lines.old.arrays ≡ map (λ array. array.name) run.old.program.arrays }
    requires start { run.old.arrays ≡ started run.old.program.arrays }
    requires each { All (λ p. length p.1 ≡ length run.old.program.fields) trace.now }
    requires packet { length packet.old ≡ length run.old.program.fields }
    ensures bytes { Puts (S.held sink.old) (S.held sink.new) (serial_report (H.meaning hash.now) (checked_form run.old.program) (map (λ p. p.1) trace.now)) result }
    ensures cause { HasCause (S.faults sink.old) (S.faults sink.new) result }
{
    let Ok(()) = lines.head(sink, "packet") else {
        return Err(SinkFault);
    };
    let Ok(()) = put_packets(run, lines, trace, packet, hash, sink) else {
        return Err(SinkFault);
    };
    let Ok(()) = put_state(run, lines, sink) else {
        return Err(SinkFault);
    };
    lines.done(sink, trace.packets() as u64, None)
}

// Runs the program on the packets, with the line of each as it comes out.
fn put_packets<S: Sink, H: HashUnits>(
    run: &mut SerialRun,
    lines: &mut Lines,
    trace: &Trace,
    packet: &mut Packet,
    hash: &H,
    sink: &mut S,
) -> Result<(), SinkFault>
    requires words { length run.old.program.fields ≤ lines.old.words }
    requires each { All (λ p. length p.1 ≡ length run.old.program.fields) trace.now }
    requires packet { length packet.old ≡ length run.old.program.fields }
    ensures ran { OnOk result (RanInTurn (H.meaning hash.now) (bodies_form run.old.program.bodies) run.old.arrays run.new.arrays (S.held sink.old) (S.held sink.new) 1 (map (λ p. p.1) trace.now)) }
    ensures part { OnErr result (IsPart (S.held sink.old) (S.held sink.new) (lines_in_turn (H.meaning hash.now) (bodies_form run.old.program.bodies) run.old.arrays 1 (map (λ p. p.1) trace.now))) }
    ensures cause { HasCause (S.faults sink.old) (S.faults sink.new) result }
    ensures program { run.new.program ≡ run.old.program }
    ensures same { lines.new ≡ lines.old }
{
    for k in 0..trace.packets() {
        trace.fill(k, packet);
        run.step(hash, packet);
        let Ok(()) = lines.packet(sink, k as u64 + 1, packet.words()) else {
            return Err(SinkFault);
        };
    }
    Ok(())
}

// The lines of the state words that are not 0.
fn put_state<S: Sink>(run: &SerialRun, lines: &mut Lines, sink: &mut S) -> Result<(), SinkFault>
    requires { length run.now.program.arrays ≡ length lines.old.arrays }
    ensures bytes { Puts (S.held sink.old) (S.held sink.new) (joined (state_lines lines.old.arrays run.now.arrays)) result }
    ensures cause { HasCause (S.faults sink.old) (S.faults sink.new) result }
    ensures same { lines.new ≡ lines.old }
{
    let count = run.program().arrays().len();
    for array in 0..count {
        let Ok(()) = put_array(run, array, lines, sink) else {
            return Err(SinkFault);
        };
    }
    Ok(())
}

// The lines of the words of one array that are not 0.
fn put_array<S: Sink>(
    run: &SerialRun,
    array: usize,
    lines: &mut Lines,
    sink: &mut S,
) -> Result<(), SinkFault>
    requires array { array < length run.now.program.arrays }
    requires name { array < length lines.old.arrays }
    ensures bytes { Puts (S.held sink.old) (S.held sink.new) (joined (array_lines (name_at lines.old.arrays array) 0 (array_of run.now.arrays array))) result }
    ensures cause { HasCause (S.faults sink.old) (S.faults sink.new) result }
    ensures same { lines.new ≡ lines.old }
{
    let length = run.program().arrays().get(array).length;
    for index in 0..length {
        let word = run.word(array, index);
        let Ok(()) = put_word(array, index, word, lines, sink) else {
            return Err(SinkFault);
        };
    }
    Ok(())
}

/// Puts the line of a state word, unless it is 0.
pub(crate) fn put_word<S: Sink>(
    array: usize,
    index: u32,
    word: u32,
    lines: &mut Lines,
    sink: &mut S,
) -> Result<(), SinkFault>
    requires { array < length lines.old.arrays }
    ensures bytes { Puts (S.held sink.old) (S.held sink.new) (joined (word_lines (name_at lines.old.arrays array) index word)) result }
    ensures cause { HasCause (S.faults sink.old) (S.faults sink.new) result }
    ensures same { lines.new ≡ lines.old }
{
    if word == 0 {
        return Ok(());
    }
    lines.state(sink, array, index, word)
}
