ghost use Rattle.std.specs.Prelude.{◌≡◌, ◌+◌, ◌<◌, ◌^◌, ◌++◌, [], ◌∷◌, All, IfOk, None, OnErr, OnOk, Some, length, replicate};
ghost use Rattle.std.specs.Option.{option_map};
ghost use Rattle.banzai_machine.specs.Pipe.{drain};
ghost use Rattle.banzai_machine.specs.State.{HasWords};
ghost use Rattle.dom_io.specs.Causes.{HasCause};
ghost use Rattle.dom_report.specs.Clocking.{ClockedOver, StoppedIn};
ghost use Rattle.trace_text.specs.Trace.{cycles_of, entries};

use crate::clocked::Clocked;
use crate::each_cycle::EachCycle;
use crate::entering::Packets;
use dom_io::{Sink, SinkFault};
use dom_words::{HashUnits, Packet};

/// Clocks over the packets with their idle cycles and over the drain, and does after each cycle what is to be done. Answers
/// the number of cycles. `entering` and `leaving` have a word for each field.
pub(crate) fn clock<M: Clocked, P: Packets, A: EachCycle<M>, H: HashUnits, S: Sink>(
    machine: &mut M,
    packets: &mut P,
    action: &mut A,
    hash: &H,
    sink: &mut S,
    entering: &mut Packet,
    leaving: &mut Packet,
) -> Result<u64, SinkFault>
    requires fits { A.fits action.old (M.machine machine.old).config }
    requires each { All (λ p. length p.1 ≡ length (M.machine machine.old).config.fields) (P.rest packets.old) }
    requires entering { length entering.old ≡ length (M.machine machine.old).config.fields }
    requires leaving { length leaving.old ≡ length (M.machine machine.old).config.fields }
    requires cycles { cycles_of (P.rest packets.old) + length (M.machine machine.old).config.stages < 2 ^ 64 }
    ensures clocked { OnOk result (ClockedOver A.bytes A.after (H.meaning hash.now) (M.machine machine.old) (M.machine machine.new) action.old action.new (S.held sink.old) (S.held sink.new) 0 (entries (P.rest packets.old) ++ drain (M.machine machine.old).config)) }
    ensures stopped { OnErr result (StoppedIn A.bytes A.after (H.meaning hash.now) (M.machine machine.old) (M.machine machine.new) action.old (S.held sink.old) (S.held sink.new) 0 (entries (P.rest packets.old) ++ drain (M.machine machine.old).config)) }
    ensures cause { HasCause (S.faults sink.old) (S.faults sink.new) result }
    ensures cycles { IfOk result (λ cycles. cycles ≡ length (entries (P.rest packets.old) ++ drain (M.machine machine.old).config)) }
    ensures config { (M.machine machine.new).config ≡ (M.machine machine.old).config }
{
    let mut number = 0u64;
    while let Some(gap) = packets.next_packet(entering) {
        let words = entering.words();
        let Ok(()) = clock_packet(machine, number, gap, words, leaving, action, hash, sink) else {
            return Err(SinkFault);
        };
        number += gap + 1;
    }
    let depth = machine.stages();
    let Ok(()) = clock_idle(machine, number, depth, leaving, action, hash, sink) else {
        return Err(SinkFault);
    };
    Ok(number + depth)
}

// The idle cycles before a packet, and the cycle in which it enters.
fn clock_packet<M: Clocked, A: EachCycle<M>, H: HashUnits, S: Sink>(
    machine: &mut M,
    number: u64,
    gap: u64,
    words: &[u32],
    leaving: &mut Packet,
    action: &mut A,
    hash: &H,
    sink: &mut S,
) -> Result<(), SinkFault>
    requires entering { length words.now ≡ length (M.machine machine.old).config.fields }
    requires leaving { length leaving.old ≡ length (M.machine machine.old).config.fields }
    requires fits { A.fits action.old (M.machine machine.old).config }
    requires few { number + gap < 2 ^ 64 }
    ensures clocked { OnOk result (ClockedOver A.bytes A.after (H.meaning hash.now) (M.machine machine.old) (M.machine machine.new) action.old action.new (S.held sink.old) (S.held sink.new) number (replicate gap None ++ Some words.now ∷ [])) }
    ensures stopped { OnErr result (StoppedIn A.bytes A.after (H.meaning hash.now) (M.machine machine.old) (M.machine machine.new) action.old (S.held sink.old) (S.held sink.new) number (replicate gap None ++ Some words.now ∷ [])) }
    ensures cause { HasCause (S.faults sink.old) (S.faults sink.new) result }
    ensures config { (M.machine machine.new).config ≡ (M.machine machine.old).config }
    ensures fits { A.fits action.new (M.machine machine.old).config }
    ensures size { length leaving.new ≡ length leaving.old }
{
    let Ok(()) = clock_idle(machine, number, gap, leaving, action, hash, sink) else {
        return Err(SinkFault);
    };
    let number = number + gap;
    clock_once(machine, number, Some(words), leaving, action, hash, sink)
}

// So many idle cycles.
fn clock_idle<M: Clocked, A: EachCycle<M>, H: HashUnits, S: Sink>(
    machine: &mut M,
    number: u64,
    count: u64,
    leaving: &mut Packet,
    action: &mut A,
    hash: &H,
    sink: &mut S,
) -> Result<(), SinkFault>
    requires leaving { length leaving.old ≡ length (M.machine machine.old).config.fields }
    requires fits { A.fits action.old (M.machine machine.old).config }
    requires few { number + count < 2 ^ 64 }
    ensures clocked { OnOk result (ClockedOver A.bytes A.after (H.meaning hash.now) (M.machine machine.old) (M.machine machine.new) action.old action.new (S.held sink.old) (S.held sink.new) number (replicate count None)) }
    ensures stopped { OnErr result (StoppedIn A.bytes A.after (H.meaning hash.now) (M.machine machine.old) (M.machine machine.new) action.old (S.held sink.old) (S.held sink.new) number (replicate count None)) }
    ensures cause { HasCause (S.faults sink.old) (S.faults sink.new) result }
    ensures config { (M.machine machine.new).config ≡ (M.machine machine.old).config }
    ensures fits { A.fits action.new (M.machine machine.old).config }
    ensures size { length leaving.new ≡ length leaving.old }
{
    for done in 0..count {
        let now = number + done;
        let Ok(()) = clock_once(machine, now, None, leaving, action, hash, sink) else {
            return Err(SinkFault);
        };
    }
    Ok(())
}

// One cycle, and what is done after it.
fn clock_once<M: Clocked, A: EachCycle<M>, H: HashUnits, S: Sink>(
    machine: &mut M,
    number: u64,
    entering: Option<&[u32]>,
    leaving: &mut Packet,
    action: &mut A,
    hash: &H,
    sink: &mut S,
) -> Result<(), SinkFault>
    requires entering { HasWords (length (M.machine machine.old).config.fields) (option_map (λ fields. fields.now) entering) }
    requires leaving { length leaving.old ≡ length (M.machine machine.old).config.fields }
    requires fits { A.fits action.old (M.machine machine.old).config }
    ensures clocked { OnOk result (ClockedOver A.bytes A.after (H.meaning hash.now) (M.machine machine.old) (M.machine machine.new) action.old action.new (S.held sink.old) (S.held sink.new) number (option_map (λ fields. fields.now) entering.entry ∷ [])) }
    ensures stopped { OnErr result (StoppedIn A.bytes A.after (H.meaning hash.now) (M.machine machine.old) (M.machine machine.new) action.old (S.held sink.old) (S.held sink.new) number (option_map (λ fields. fields.now) entering.entry ∷ [])) }
    ensures cause { HasCause (S.faults sink.old) (S.faults sink.new) result }
    ensures config { (M.machine machine.new).config ≡ (M.machine machine.old).config }
    ensures fits { A.fits action.new (M.machine machine.old).config }
    ensures size { length leaving.new ≡ length leaving.old }
{
    let left = if machine.run_cycle(hash, entering, leaving) {
        Some(leaving.words())
    } else {
        None
    };
    action.put_cycle(machine, number, left, sink)
}
