ghost use Rattle.std.specs.Prelude.{◌≡◌, ◌+◌, ◌<◌, ◌≤◌, [], All, length};
ghost use Rattle.banzai_machine.specs.State.{Stands};
ghost use Rattle.dom_io.specs.Causes.{HasCause};
ghost use Rattle.dom_io.specs.Held.{Puts};
ghost use Rattle.dom_report.specs.RunReport.{array_names, places_from, run_end, run_report, stage_lines};
ghost use Rattle.dom_report.specs.SerialReport.{array_lines, state_lines};
ghost use Rattle.dom_words.specs.State.{array_of};
ghost use Rattle.trace_text.specs.Lines.{joined, name_at};
ghost use Rattle.trace_text.specs.Trace.{cycles_of, entries, most_cycles};

use crate::driving::drive;
use crate::serial_report::put_word;
use atom_traits::AtomTemplate;
use banzai_machine::Machine;
use dom_io::{Sink, SinkFault};
use dom_words::{HashUnits, Packet};
use trace_text::{Lines, Trace};

/// Clocks a machine that stands at its beginning over the trace's entries and the drain, and puts the report, one line a put
/// (docs/FORMATS.md, "The report"). `entering` and `leaving` have a word for each field. Takes no memory.
pub fn put_run_report<
    T: AtomTemplate,
    const DEPTH: usize,
    const SL: usize,
    const SF: usize,
    H: HashUnits,
    S: Sink,
>(
    machine: &mut Machine<T, DEPTH, SL, SF>,
    lines: &mut Lines,
    trace: &Trace,
    entering: &mut Packet,
    leaving: &mut Packet,
    hash: &H,
    sink: &mut S,
) -> Result<(), SinkFault>
    requires start { Stands (H.meaning hash.now) [] machine.old }
    requires words { length machine.old.config.fields ≤ lines.old.words }
    requires fields { lines.old.fields ≡ machine.old.config.fields }
    requires arrays { lines.old.arrays ≡ array_names machine.old.config }
    requires each { All (λ p. length p.1 ≡ length machine.old.config.fields) trace.now }
    requires entering { length entering.old ≡ length machine.old.config.fields }
    requires leaving { length leaving.old ≡ length machine.old.config.fields }
    requires cycles { cycles_of trace.now + length machine.old.config.stages ≤ most_cycles }
    ensures bytes { Puts (S.held sink.old) (S.held sink.new) (run_report (H.meaning hash.now) machine.old.config (entries trace.now)) result }
    ensures cause { HasCause (S.faults sink.old) (S.faults sink.new) result }
    ensures config { machine.new.config ≡ machine.old.config }
{
    let Ok(()) = lines.head(sink, "cycle") else {
        return Err(SinkFault);
    };
    let Ok(()) = drive(machine, trace, hash, lines, sink, entering, leaving) else {
        return Err(SinkFault);
    };
    let cycles = cycles_over(trace) + machine.config().stages() as u64;
    put_end(machine, lines, trace.packets() as u64, cycles, sink)
}

// The number of the trace's entries.
fn cycles_over(trace: &Trace) -> u64
    requires { cycles_of trace.now ≤ most_cycles }
    ensures { result ≡ length (entries trace.now) }
{
    let mut cycles = 0u64;
    for k in 0..trace.packets() {
        cycles += u64::from(trace.gap(k)) + 1;
    }
    cycles
}

// The lines behind the packets: the state words that are not 0, the stages of the arrays, and the numbers of packets and of
// cycles.
fn put_end<T: AtomTemplate, const DEPTH: usize, const SL: usize, const SF: usize, S: Sink>(
    machine: &Machine<T, DEPTH, SL, SF>,
    lines: &mut Lines,
    packets: u64,
    cycles: u64,
    sink: &mut S,
) -> Result<(), SinkFault>
    requires { lines.old.arrays ≡ array_names machine.now.config }
    ensures bytes { Puts (S.held sink.old) (S.held sink.new) (joined (run_end machine.now.config machine.now.row.state packets cycles)) result }
    ensures cause { HasCause (S.faults sink.old) (S.faults sink.new) result }
{
    let Ok(()) = put_words(machine, lines, sink) else {
        return Err(SinkFault);
    };
    let Ok(()) = put_places(machine, lines, sink) else {
        return Err(SinkFault);
    };
    lines.done(sink, packets, Some(cycles))
}

/// The lines of the state words that are not 0.
pub(crate) fn put_words<
    T: AtomTemplate,
    const DEPTH: usize,
    const SL: usize,
    const SF: usize,
    S: Sink,
>(machine: &Machine<T, DEPTH, SL, SF>, lines: &mut Lines, sink: &mut S) -> Result<(), SinkFault>
    requires { lines.old.arrays ≡ array_names machine.now.config }
    ensures bytes { Puts (S.held sink.old) (S.held sink.new) (joined (state_lines lines.old.arrays machine.now.row.state)) result }
    ensures cause { HasCause (S.faults sink.old) (S.faults sink.new) result }
    ensures same { lines.new ≡ lines.old }
{
    let count = machine.config().arrays().len();
    for array in 0..count {
        let Ok(()) = put_array(machine, array, lines, sink) else {
            return Err(SinkFault);
        };
    }
    Ok(())
}

// The lines of the words of one array that are not 0.
fn put_array<T: AtomTemplate, const DEPTH: usize, const SL: usize, const SF: usize, S: Sink>(
    machine: &Machine<T, DEPTH, SL, SF>,
    array: usize,
    lines: &mut Lines,
    sink: &mut S,
) -> Result<(), SinkFault>
    requires array { array < length machine.now.config.arrays }
    requires name { array < length lines.old.arrays }
    ensures bytes { Puts (S.held sink.old) (S.held sink.new) (joined (array_lines (name_at lines.old.arrays array) 0 (array_of machine.now.row.state array))) result }
    ensures cause { HasCause (S.faults sink.old) (S.faults sink.new) result }
    ensures same { lines.new ≡ lines.old }
{
    let length = machine.config().arrays().get(array).length;
    for index in 0..length {
        let word = machine.word(array, index);
        let Ok(()) = put_word(array, index, word, lines, sink) else {
            return Err(SinkFault);
        };
    }
    Ok(())
}

/// The lines of the stages of the arrays that an atom holds.
pub(crate) fn put_places<
    T: AtomTemplate,
    const DEPTH: usize,
    const SL: usize,
    const SF: usize,
    S: Sink,
>(machine: &Machine<T, DEPTH, SL, SF>, lines: &mut Lines, sink: &mut S) -> Result<(), SinkFault>
    requires { lines.old.arrays ≡ array_names machine.now.config }
    ensures bytes { Puts (S.held sink.old) (S.held sink.new) (joined (places_from machine.now.config.stages 0 lines.old.arrays)) result }
    ensures cause { HasCause (S.faults sink.old) (S.faults sink.new) result }
    ensures same { lines.new ≡ lines.old }
{
    let count = machine.config().arrays().len();
    for array in 0..count {
        let place = machine.config().place(array);
        let Ok(()) = put_place(array, place, lines, sink) else {
            return Err(SinkFault);
        };
    }
    Ok(())
}

// The line of an array's stage, where an atom holds it.
fn put_place<S: Sink>(
    array: usize,
    place: Option<u32>,
    lines: &mut Lines,
    sink: &mut S,
) -> Result<(), SinkFault>
    requires { array < length lines.old.arrays }
    ensures bytes { Puts (S.held sink.old) (S.held sink.new) (joined (stage_lines (name_at lines.old.arrays array) place)) result }
    ensures cause { HasCause (S.faults sink.old) (S.faults sink.new) result }
    ensures same { lines.new ≡ lines.old }
{
    match place {
        Some(stage) => lines.place(sink, array, stage),
        None => Ok(()),
    }
}
