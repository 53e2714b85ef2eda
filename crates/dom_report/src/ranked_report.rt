ghost use Rattle.std.specs.Prelude.{◌≡◌, ◌+◌, ◌-◌, ◌*◌, ◌%◌, ◌^◌, ◌<◌, ◌≤◌, ◌++◌, [], ◌∷◌, None, OnErr, OnOk, Some, All, cond, length, nat_eq, replicate};
ghost use Rattle.std.specs.Option.{option_map};
ghost use Rattle.dom_io.specs.Causes.{HasCause};
ghost use Rattle.dom_io.specs.Held.{IsPart, Puts};
ghost use Rattle.banzai_machine.specs.State.{HasWords};
ghost use Rattle.dom_report.specs.RankedCycles.{CanTurn, RankedOver, lines_on};
ghost use Rattle.dom_report.specs.RankedReport.{IsRankedReady, cycles_to_serve, dropped_lines, ranked_end, ranked_report, served_lines, serves};
ghost use Rattle.dom_report.specs.RunReport.{array_names};
ghost use Rattle.trace_text.specs.Lines.{joined};
ghost use Rattle.trace_text.specs.Trace.{cycles_of, entries};

use crate::run_report::put_words;
use atom_traits::AtomTemplate;
use dom_io::{Sink, SinkFault};
use dom_words::{HashUnits, Packet};
use pifo_rank::{Outcome, Ranked};
use trace_text::{Lines, Trace};

/// Clocks a machine that stands at its beginning, with an empty queue behind it, over the trace's entries, the drain and then
/// idle cycles until the queue is empty, and puts the report of `schedule`, one line a put (docs/FORMATS.md, "The report of
/// `schedule`"). Of each `every` cycles the last one serves. `entering`, `served` and `dropped` have a word for each field.
/// Takes no memory.
pub fn put_ranked_report<
    T: AtomTemplate,
    const DEPTH: usize,
    const SL: usize,
    const SF: usize,
    H: HashUnits,
    S: Sink,
>(
    ranked: &mut Ranked<T, DEPTH, SL, SF>,
    lines: &mut Lines,
    trace: &Trace,
    entering: &mut Packet,
    served: &mut Packet,
    dropped: &mut Packet,
    every: u64,
    hash: &H,
    sink: &mut S,
) -> Result<(), SinkFault>
    requires ready { IsRankedReady (H.meaning hash.now) ranked.old lines.old trace.now entering.old served.old dropped.old every }
    ensures bytes { Puts (S.held sink.old) (S.held sink.new) (ranked_report (H.meaning hash.now) ranked.old.machine.config ranked.old.rank ranked.old.queue.room every (entries trace.now)) result }
    ensures cause { HasCause (S.faults sink.old) (S.faults sink.new) result }
    ensures config { ranked.new.machine.config ≡ ranked.old.machine.config }
{
    let Ok(()) = lines.head(sink, "cycle") else {
        return Err(SinkFault);
    };
    let mut progress = Progress {
        cycles: 0,
        served: 0,
    };
    let Ok(()) = clock_trace(
        ranked,
        &mut progress,
        every,
        trace,
        entering,
        served,
        dropped,
        lines,
        hash,
        sink,
    ) else {
        return Err(SinkFault);
    };
    let rest = cycles_to_serve(every, progress.cycles, ranked.held() as u64);
    let Ok(()) = clock_idle(
        ranked,
        &mut progress,
        every,
        rest,
        served,
        dropped,
        lines,
        hash,
        sink,
    ) else {
        return Err(SinkFault);
    };
    put_end(ranked, lines, progress, sink)
}

// The cycles so far, and how many packets were served in them.
#[derive(Clone, Copy)]
struct Progress {
    cycles: u64,
    served: u64,
}

// How many cycles it takes from this one on to serve so many packets.
fn cycles_to_serve(every: u64, cycle: u64, packets: u64) -> u64
    requires some { 1 ≤ every }
    requires often { every ≤ 16 }
    requires few { packets ≤ 65536 }
    ensures value { result ≡ cycles_to_serve every cycle packets }
    ensures small { result ≤ 1048576 }
{
    (packets * every).saturating_sub(cycle % every)
}

// The entries of the trace, and the drain behind them.
fn clock_trace<
    T: AtomTemplate,
    const DEPTH: usize,
    const SL: usize,
    const SF: usize,
    H: HashUnits,
    S: Sink,
>(
    ranked: &mut Ranked<T, DEPTH, SL, SF>,
    progress: &mut Progress,
    every: u64,
    trace: &Trace,
    entering: &mut Packet,
    served: &mut Packet,
    dropped: &mut Packet,
    lines: &mut Lines,
    hash: &H,
    sink: &mut S,
) -> Result<(), SinkFault>
    requires can { CanTurn every ranked.old progress.old lines.old served.old dropped.old }
    requires start { progress.old.cycles ≡ 0 }
    requires each { All (λ p. length p.1 ≡ length ranked.old.machine.config.fields) trace.now }
    requires entering { length entering.old ≡ length ranked.old.machine.config.fields }
    requires few { cycles_of trace.now + length ranked.old.machine.config.stages < 2 ^ 63 }
    ensures over { OnOk result (RankedOver (H.meaning hash.now) every ranked.old ranked.new progress.old progress.new (S.held sink.old) (S.held sink.new) (entries trace.now ++ replicate (length ranked.old.machine.config.stages) None)) }
    ensures part { OnErr result (IsPart (S.held sink.old) (S.held sink.new) (lines_on (H.meaning hash.now) every ranked.old progress.old.cycles (entries trace.now ++ replicate (length ranked.old.machine.config.stages) None))) }
    ensures can { CanTurn every ranked.new progress.new lines.new served.new dropped.new }
    ensures cause { HasCause (S.faults sink.old) (S.faults sink.new) result }
    ensures config { ranked.new.machine.config ≡ ranked.old.machine.config }
    ensures same { lines.new ≡ lines.old }
{
    for k in 0..trace.packets() {
        let gap = u64::from(trace.gap(k));
        trace.fill(k, entering);
        let words = entering.words();
        let Ok(()) = clock_packet(
            ranked, progress, every, gap, words, served, dropped, lines, hash, sink,
        ) else {
            return Err(SinkFault);
        };
    }
    let depth = ranked.machine().config().stages() as u64;
    clock_idle(
        ranked, progress, every, depth, served, dropped, lines, hash, sink,
    )
}

// The idle cycles before a packet, and the cycle in which it enters.
fn clock_packet<
    T: AtomTemplate,
    const DEPTH: usize,
    const SL: usize,
    const SF: usize,
    H: HashUnits,
    S: Sink,
>(
    ranked: &mut Ranked<T, DEPTH, SL, SF>,
    progress: &mut Progress,
    every: u64,
    gap: u64,
    words: &[u32],
    served: &mut Packet,
    dropped: &mut Packet,
    lines: &mut Lines,
    hash: &H,
    sink: &mut S,
) -> Result<(), SinkFault>
    requires can { CanTurn every ranked.old progress.old lines.old served.old dropped.old }
    requires entering { length words.now ≡ length ranked.old.machine.config.fields }
    requires few { progress.old.cycles + gap < 2 ^ 63 }
    ensures over { OnOk result (RankedOver (H.meaning hash.now) every ranked.old ranked.new progress.old progress.new (S.held sink.old) (S.held sink.new) (replicate gap None ++ Some words.now ∷ [])) }
    ensures part { OnErr result (IsPart (S.held sink.old) (S.held sink.new) (lines_on (H.meaning hash.now) every ranked.old progress.old.cycles (replicate gap None ++ Some words.now ∷ []))) }
    ensures can { CanTurn every ranked.new progress.new lines.new served.new dropped.new }
    ensures cause { HasCause (S.faults sink.old) (S.faults sink.new) result }
    ensures config { ranked.new.machine.config ≡ ranked.old.machine.config }
    ensures same { lines.new ≡ lines.old }
{
    let Ok(()) = clock_idle(
        ranked, progress, every, gap, served, dropped, lines, hash, sink,
    ) else {
        return Err(SinkFault);
    };
    clock_once(
        ranked,
        progress,
        every,
        Some(words),
        served,
        dropped,
        lines,
        hash,
        sink,
    )
}

// So many idle cycles.
fn clock_idle<
    T: AtomTemplate,
    const DEPTH: usize,
    const SL: usize,
    const SF: usize,
    H: HashUnits,
    S: Sink,
>(
    ranked: &mut Ranked<T, DEPTH, SL, SF>,
    progress: &mut Progress,
    every: u64,
    count: u64,
    served: &mut Packet,
    dropped: &mut Packet,
    lines: &mut Lines,
    hash: &H,
    sink: &mut S,
) -> Result<(), SinkFault>
    requires can { CanTurn every ranked.old progress.old lines.old served.old dropped.old }
    requires few { progress.old.cycles + count ≤ 2 ^ 63 }
    ensures over { OnOk result (RankedOver (H.meaning hash.now) every ranked.old ranked.new progress.old progress.new (S.held sink.old) (S.held sink.new) (replicate count None)) }
    ensures part { OnErr result (IsPart (S.held sink.old) (S.held sink.new) (lines_on (H.meaning hash.now) every ranked.old progress.old.cycles (replicate count None))) }
    ensures can { CanTurn every ranked.new progress.new lines.new served.new dropped.new }
    ensures cause { HasCause (S.faults sink.old) (S.faults sink.new) result }
    ensures config { ranked.new.machine.config ≡ ranked.old.machine.config }
    ensures same { lines.new ≡ lines.old }
{
    for _done in 0..count {
        let Ok(()) = clock_once(
            ranked, progress, every, None, served, dropped, lines, hash, sink,
        ) else {
            return Err(SinkFault);
        };
    }
    Ok(())
}

// One cycle, and the lines of what is dropped and served in it.
fn clock_once<
    T: AtomTemplate,
    const DEPTH: usize,
    const SL: usize,
    const SF: usize,
    H: HashUnits,
    S: Sink,
>(
    ranked: &mut Ranked<T, DEPTH, SL, SF>,
    progress: &mut Progress,
    every: u64,
    entering: Option<&[u32]>,
    served: &mut Packet,
    dropped: &mut Packet,
    lines: &mut Lines,
    hash: &H,
    sink: &mut S,
) -> Result<(), SinkFault>
    requires can { CanTurn every ranked.old progress.old lines.old served.old dropped.old }
    requires entering { HasWords (length ranked.old.machine.config.fields) (option_map (λ fields. fields.now) entering) }
    requires few { progress.old.cycles < 2 ^ 63 }
    ensures over { OnOk result (RankedOver (H.meaning hash.now) every ranked.old ranked.new progress.old progress.new (S.held sink.old) (S.held sink.new) (option_map (λ fields. fields.now) entering.entry ∷ [])) }
    ensures part { OnErr result (IsPart (S.held sink.old) (S.held sink.new) (lines_on (H.meaning hash.now) every ranked.old progress.old.cycles (option_map (λ fields. fields.now) entering.entry ∷ []))) }
    ensures can { CanTurn every ranked.new progress.new lines.new served.new dropped.new }
    ensures cause { HasCause (S.faults sink.old) (S.faults sink.new) result }
    ensures config { ranked.new.machine.config ≡ ranked.old.machine.config }
    ensures same { lines.new ≡ lines.old }
{
    let cycle = progress.cycles;
    let serve = is_serving(every, cycle);
    let outcome = ranked.cycle(hash, entering, serve, served, dropped);
    progress.cycles += 1;
    progress.served += u64::from(outcome.served);
    put_turn(outcome, cycle, served.words(), dropped.words(), lines, sink)
}

// Whether a cycle serves.
fn is_serving(every: u64, cycle: u64) -> bool
    requires { 1 ≤ every }
    ensures { result ≡ serves every cycle }
{
    cycle % every == every - 1
}

// The lines of what is dropped and served in a cycle.
fn put_turn<S: Sink>(
    outcome: Outcome,
    cycle: u64,
    served: &[u32],
    dropped: &[u32],
    lines: &mut Lines,
    sink: &mut S,
) -> Result<(), SinkFault>
    requires served { length served.now ≤ lines.old.words }
    requires dropped { length dropped.now ≤ lines.old.words }
    ensures bytes { Puts (S.held sink.old) (S.held sink.new) (joined (dropped_lines cycle (cond outcome.dropped (Some dropped.now) None) ++ served_lines cycle (cond outcome.served (Some served.now) None))) result }
    ensures cause { HasCause (S.faults sink.old) (S.faults sink.new) result }
    ensures same { lines.new ≡ lines.old }
{
    let Ok(()) = put_dropped(outcome.dropped, cycle, dropped, lines, sink) else {
        return Err(SinkFault);
    };
    put_served(outcome.served, cycle, served, lines, sink)
}

// The line of a packet that is dropped, if one is.
fn put_dropped<S: Sink>(
    told: bool,
    cycle: u64,
    dropped: &[u32],
    lines: &mut Lines,
    sink: &mut S,
) -> Result<(), SinkFault>
    requires { length dropped.now ≤ lines.old.words }
    ensures bytes { Puts (S.held sink.old) (S.held sink.new) (joined (dropped_lines cycle (cond told (Some dropped.now) None))) result }
    ensures cause { HasCause (S.faults sink.old) (S.faults sink.new) result }
    ensures same { lines.new ≡ lines.old }
{
    if told {
        lines.drop(sink, cycle, dropped)
    } else {
        Ok(())
    }
}

// The line of a packet that is served, if one is.
fn put_served<S: Sink>(
    told: bool,
    cycle: u64,
    served: &[u32],
    lines: &mut Lines,
    sink: &mut S,
) -> Result<(), SinkFault>
    requires { length served.now ≤ lines.old.words }
    ensures bytes { Puts (S.held sink.old) (S.held sink.new) (joined (served_lines cycle (cond told (Some served.now) None))) result }
    ensures cause { HasCause (S.faults sink.old) (S.faults sink.new) result }
    ensures same { lines.new ≡ lines.old }
{
    if told {
        lines.packet(sink, cycle, served)
    } else {
        Ok(())
    }
}

// The lines behind the cycles: the state words that are not 0, and the numbers of packets that were served and of cycles.
fn put_end<T: AtomTemplate, const DEPTH: usize, const SL: usize, const SF: usize, S: Sink>(
    ranked: &Ranked<T, DEPTH, SL, SF>,
    lines: &mut Lines,
    progress: Progress,
    sink: &mut S,
) -> Result<(), SinkFault>
    requires { lines.old.arrays ≡ array_names ranked.now.machine.config }
    ensures bytes { Puts (S.held sink.old) (S.held sink.new) (joined (ranked_end ranked.now.machine.config ranked.now.machine.row.state progress.served progress.cycles)) result }
    ensures cause { HasCause (S.faults sink.old) (S.faults sink.new) result }
{
    let Ok(()) = put_words(ranked.machine(), lines, sink) else {
        return Err(SinkFault);
    };
    lines.done(sink, progress.served, Some(progress.cycles))
}
