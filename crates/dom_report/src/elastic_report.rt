ghost use Rattle.std.specs.Prelude.{◌≡◌, ◌+◌, ◌*◌, ◌^◌, ◌<◌, ◌≤◌, ℕ, true, List, All, IfOk, OnErr, OnOk, length, map, sum_by};
ghost use Rattle.dom_io.specs.Causes.{HasCause};
ghost use Rattle.dom_io.specs.Held.{IsPart, Puts, appended};
ghost use Rattle.dom_report.specs.ElasticEvents.{CanHappen, IsAt, StepsTo, end_lines, packets_in};
ghost use Rattle.dom_report.specs.ElasticReport.{IsElasticReady, after_events, elastic_report, told_lines, first_moment, told_by};
ghost use Rattle.dom_report.specs.RunReport.{array_names};
ghost use Rattle.dom_report.specs.SerialReport.{array_lines, state_lines};
ghost use Rattle.dom_words.specs.State.{Hash, array_of};
ghost use Rattle.trace_text.specs.Events.{may_happen};
ghost use Rattle.trace_text.specs.Lines.{joined, name_at};

use crate::serial_report::put_word;
use atom_traits::AtomTemplate;
use dom_io::{Sink, SinkFault};
use dom_words::{HashUnits, Packet};
use elastic_machine::Elastic;
use trace_text::{Event, Lines, Trace};

/// Runs a machine with empty queues over the events, to which the packets of the trace enter in order, and puts the report of
/// `elastic`, one line a put (docs/FORMATS.md, "The report of `elastic`"). The gaps of the trace are not used. `entering` and
/// `leaving` have a word for each field. Takes no memory.
pub fn put_elastic_report<
    T: AtomTemplate,
    const DEPTH: usize,
    const SL: usize,
    const SF: usize,
    const CAP: usize,
    H: HashUnits,
    S: Sink,
>(
    elastic: &mut Elastic<T, DEPTH, SL, SF, CAP>,
    lines: &mut Lines,
    trace: &Trace,
    events: &[Event],
    entering: &mut Packet,
    leaving: &mut Packet,
    hash: &H,
    sink: &mut S,
) -> Result<(), SinkFault>
    requires ready { IsElasticReady CAP DEPTH elastic.old lines.old trace.now events.now entering.old leaving.old }
    ensures bytes { Puts (S.held sink.old) (S.held sink.new) (elastic_report (H.meaning hash.now) CAP elastic.old.config (map (λ p. p.1) trace.now) events.now) result }
    ensures cause { HasCause (S.faults sink.old) (S.faults sink.new) result }
    ensures config { elastic.new.config ≡ elastic.old.config }
{
    let Ok(()) = lines.head(sink, "event") else {
        return Err(SinkFault);
    };
    let Ok(passed) = put_events(elastic, lines, trace, events, entering, leaving, hash, sink) else {
        return Err(SinkFault);
    };
    put_end(elastic, lines, passed, sink)
}

// How many packets have entered, and how many have left.
#[derive(Clone, Copy)]
struct Passed {
    entered: usize,
    left: usize,
}

// All events.
fn put_events<
    T: AtomTemplate,
    const DEPTH: usize,
    const SL: usize,
    const SF: usize,
    const CAP: usize,
    H: HashUnits,
    S: Sink,
>(
    elastic: &mut Elastic<T, DEPTH, SL, SF, CAP>,
    lines: &mut Lines,
    trace: &Trace,
    events: &[Event],
    entering: &mut Packet,
    leaving: &mut Packet,
    hash: &H,
    sink: &mut S,
) -> Result<Passed, SinkFault>
    requires ready { IsElasticReady CAP DEPTH elastic.old lines.old trace.now events.now entering.old leaving.old }
    ensures passed { IfOk result (λ passed. IsAt (H.meaning hash.now) CAP elastic.old.config trace.now elastic.new passed (after_events (H.meaning hash.now) CAP elastic.old.config (first_moment (packets_in trace.now)) events.now)) }
    ensures put { OnOk result (S.held sink.new ≡ appended (S.held sink.old) (joined (told_lines 1 (told_by (H.meaning hash.now) CAP elastic.old.config (first_moment (packets_in trace.now)) events.now)))) }
    ensures part { OnErr result (IsPart (S.held sink.old) (S.held sink.new) (joined (told_lines 1 (told_by (H.meaning hash.now) CAP elastic.old.config (first_moment (packets_in trace.now)) events.now)))) }
    ensures cause { HasCause (S.faults sink.old) (S.faults sink.new) result }
    ensures config { elastic.new.config ≡ elastic.old.config }
    ensures same { lines.new ≡ lines.old }
{
    let mut passed = Passed {
        entered: 0,
        left: 0,
    };
    for k in 0..events.len() {
        let number = k as u64 + 1;
        let Ok(()) = put_event(
            elastic,
            lines,
            trace,
            events[k],
            number,
            &mut passed,
            entering,
            leaving,
            hash,
            sink,
        ) else {
            return Err(SinkFault);
        };
    }
    Ok(passed)
}

// One event, which has this number.
fn put_event<
    T: AtomTemplate,
    const DEPTH: usize,
    const SL: usize,
    const SF: usize,
    const CAP: usize,
    H: HashUnits,
    S: Sink,
>(
    elastic: &mut Elastic<T, DEPTH, SL, SF, CAP>,
    lines: &mut Lines,
    trace: &Trace,
    event: Event,
    number: u64,
    passed: &mut Passed,
    entering: &mut Packet,
    leaving: &mut Packet,
    hash: &H,
    sink: &mut S,
) -> Result<(), SinkFault>
    requires can { CanHappen DEPTH elastic.old.config lines.old trace.now entering.old leaving.old passed.old number }
    requires happens { may_happen DEPTH event ≡ true }
    ensures step { StepsTo (H.meaning hash.now) CAP trace.now elastic.old elastic.new passed.old passed.new number event (S.held sink.old) (S.held sink.new) result }
    ensures cause { HasCause (S.faults sink.old) (S.faults sink.new) result }
    ensures config { elastic.new.config ≡ elastic.old.config }
    ensures same { lines.new ≡ lines.old }
    ensures entering { length entering.new ≡ length entering.old }
    ensures leaving { length leaving.new ≡ length leaving.old }
    ensures left { passed.new.left ≤ passed.old.left + 1 }
{
    match event {
        Event::Enter => enter(elastic, lines, trace, number, passed, entering, sink),
        Event::Fire(stage) => fire(elastic, lines, stage, number, hash, sink),
        Event::Leave => leave(elastic, lines, number, passed, leaving, sink),
    }
}

// The next packet of the trace enters.
fn enter<
    T: AtomTemplate,
    const DEPTH: usize,
    const SL: usize,
    const SF: usize,
    const CAP: usize,
    S: Sink,
>(
    elastic: &mut Elastic<T, DEPTH, SL, SF, CAP>,
    lines: &mut Lines,
    trace: &Trace,
    number: u64,
    passed: &mut Passed,
    entering: &mut Packet,
    sink: &mut S,
) -> Result<(), SinkFault>
    requires each { All (λ p. length p.1 ≡ length elastic.old.config.fields) trace.now }
    requires entering { length entering.old ≡ length elastic.old.config.fields }
    ensures step { (hash : Hash) → StepsTo hash CAP trace.now elastic.old elastic.new passed.old passed.new number Event.Enter (S.held sink.old) (S.held sink.new) result }
    ensures cause { HasCause (S.faults sink.old) (S.faults sink.new) result }
    ensures config { elastic.new.config ≡ elastic.old.config }
    ensures same { lines.new ≡ lines.old }
    ensures entering { length entering.new ≡ length entering.old }
    ensures left { passed.new.left ≡ passed.old.left }
{
    if passed.entered >= trace.packets() {
        return lines.wait(sink, number);
    }
    trace.fill(passed.entered, entering);
    match elastic.enter(entering.words()) {
        Ok(()) => {
            passed.entered += 1;
            Ok(())
        }
        Err(_) => lines.wait(sink, number),
    }
}

// A stage takes the oldest packet of the queue before it.
fn fire<
    T: AtomTemplate,
    const DEPTH: usize,
    const SL: usize,
    const SF: usize,
    const CAP: usize,
    H: HashUnits,
    S: Sink,
>(
    elastic: &mut Elastic<T, DEPTH, SL, SF, CAP>,
    lines: &mut Lines,
    stage: u32,
    number: u64,
    hash: &H,
    sink: &mut S,
) -> Result<(), SinkFault>
    requires first { 1 ≤ stage }
    requires last { stage ≤ DEPTH }
    ensures step { (packets : List (ℕ × List ℕ)) (passed : Passed) → StepsTo (H.meaning hash.now) CAP packets elastic.old elastic.new passed passed number (Event.Fire stage) (S.held sink.old) (S.held sink.new) result }
    ensures cause { HasCause (S.faults sink.old) (S.faults sink.new) result }
    ensures config { elastic.new.config ≡ elastic.old.config }
    ensures same { lines.new ≡ lines.old }
{
    match elastic.fire(hash, stage) {
        Ok(()) => Ok(()),
        Err(_) => lines.wait(sink, number),
    }
}

// The oldest packet of the last queue leaves.
fn leave<
    T: AtomTemplate,
    const DEPTH: usize,
    const SL: usize,
    const SF: usize,
    const CAP: usize,
    S: Sink,
>(
    elastic: &mut Elastic<T, DEPTH, SL, SF, CAP>,
    lines: &mut Lines,
    number: u64,
    passed: &mut Passed,
    leaving: &mut Packet,
    sink: &mut S,
) -> Result<(), SinkFault>
    requires words { length elastic.old.config.fields ≤ lines.old.words }
    requires leaving { length leaving.old ≡ length elastic.old.config.fields }
    requires few { passed.old.left < number }
    ensures step { (hash : Hash) (packets : List (ℕ × List ℕ)) → StepsTo hash CAP packets elastic.old elastic.new passed.old passed.new number Event.Leave (S.held sink.old) (S.held sink.new) result }
    ensures cause { HasCause (S.faults sink.old) (S.faults sink.new) result }
    ensures config { elastic.new.config ≡ elastic.old.config }
    ensures same { lines.new ≡ lines.old }
    ensures leaving { length leaving.new ≡ length leaving.old }
    ensures left { passed.new.left ≤ passed.old.left + 1 }
{
    match elastic.leave(leaving) {
        Ok(()) => {
            passed.left += 1;
            lines.packet(sink, number, leaving.words())
        }
        Err(_) => lines.wait(sink, number),
    }
}

// The lines behind the events: the state words that are not 0, the packets that are held, and the numbers of those that entered
// and left.
fn put_end<
    T: AtomTemplate,
    const DEPTH: usize,
    const SL: usize,
    const SF: usize,
    const CAP: usize,
    S: Sink,
>(
    elastic: &Elastic<T, DEPTH, SL, SF, CAP>,
    lines: &mut Lines,
    passed: Passed,
    sink: &mut S,
) -> Result<(), SinkFault>
    requires arrays { lines.old.arrays ≡ array_names elastic.now.config }
    requires some { 1 ≤ CAP }
    requires few { (length elastic.now.config.stages + 1) * CAP < 2 ^ 32 }
    ensures bytes { Puts (S.held sink.old) (S.held sink.new) (joined (end_lines elastic.now passed)) result }
    ensures cause { HasCause (S.faults sink.old) (S.faults sink.new) result }
{
    let Ok(()) = put_words(elastic, lines, sink) else {
        return Err(SinkFault);
    };
    let Ok(()) = lines.held(sink, held_in(elastic)) else {
        return Err(SinkFault);
    };
    lines.done(sink, passed.entered as u64, Some(passed.left as u64))
}

// How many packets are in the queues.
fn held_in<T: AtomTemplate, const DEPTH: usize, const SL: usize, const SF: usize, const CAP: usize>(
    elastic: &Elastic<T, DEPTH, SL, SF, CAP>,
) -> u64
    requires some { 1 ≤ CAP }
    requires few { (length elastic.now.config.stages + 1) * CAP < 2 ^ 32 }
    ensures { result ≡ sum_by length elastic.now.queues }
{
    let queues = elastic.config().stages() as u32 + 1;
    let mut held = 0u64;
    for queue in 0..queues {
        held += elastic.held(queue) as u64;
    }
    held
}

// The lines of the state words that are not 0.
fn put_words<
    T: AtomTemplate,
    const DEPTH: usize,
    const SL: usize,
    const SF: usize,
    const CAP: usize,
    S: Sink,
>(
    elastic: &Elastic<T, DEPTH, SL, SF, CAP>,
    lines: &mut Lines,
    sink: &mut S,
) -> Result<(), SinkFault>
    requires { lines.old.arrays ≡ array_names elastic.now.config }
    ensures bytes { Puts (S.held sink.old) (S.held sink.new) (joined (state_lines lines.old.arrays elastic.now.state)) result }
    ensures cause { HasCause (S.faults sink.old) (S.faults sink.new) result }
    ensures same { lines.new ≡ lines.old }
{
    let count = elastic.config().arrays().len();
    for array in 0..count {
        let Ok(()) = put_array(elastic, array, lines, sink) else {
            return Err(SinkFault);
        };
    }
    Ok(())
}

// The lines of the words of one array that are not 0.
fn put_array<
    T: AtomTemplate,
    const DEPTH: usize,
    const SL: usize,
    const SF: usize,
    const CAP: usize,
    S: Sink,
>(
    elastic: &Elastic<T, DEPTH, SL, SF, CAP>,
    array: usize,
    lines: &mut Lines,
    sink: &mut S,
) -> Result<(), SinkFault>
    requires array { array < length elastic.now.config.arrays }
    requires name { array < length lines.old.arrays }
    ensures bytes { Puts (S.held sink.old) (S.held sink.new) (joined (array_lines (name_at lines.old.arrays array) 0 (array_of elastic.now.state array))) result }
    ensures cause { HasCause (S.faults sink.old) (S.faults sink.new) result }
    ensures same { lines.new ≡ lines.old }
{
    let length = elastic.config().arrays().get(array).length;
    for index in 0..length {
        let word = elastic.word(array, index);
        let Ok(()) = put_word(array, index, word, lines, sink) else {
            return Err(SinkFault);
        };
    }
    Ok(())
}
