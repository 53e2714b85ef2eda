ghost use Rattle.std.specs.Prelude.{◌≡◌, ◌+◌, ◌<◌, ◌≤◌, ◌^◌, ◌++◌, [], ◌∷◌, All, IfOk, None, OnErr, OnOk, Some, length, replicate};
ghost use Rattle.std.specs.Option.{option_map};
ghost use Rattle.banzai_machine.specs.Pipe.{drain};
ghost use Rattle.banzai_machine.specs.State.{HasWords};
ghost use Rattle.dom_io.specs.Causes.{HasCause};
ghost use Rattle.dom_io.specs.Held.{IsPart};
ghost use Rattle.dom_report.specs.Clocking.{left_over};
ghost use Rattle.dom_report.specs.Report.{packet_lines};
ghost use Rattle.dom_report.specs.Tapping.{TappedOver};
ghost use Rattle.probe_taps.specs.Attached.{tapped_form};
ghost use Rattle.trace_text.specs.Trace.{cycles_of, entries};

use atom_traits::AtomTemplate;
use dom_io::{Sink, SinkFault};
use dom_words::{HashUnits, Packet};
use probe_taps::Tapped;
use trace_text::{Lines, Trace};

/// Clocks a machine under taps over the trace's entries and the drain, and puts the line of each packet that leaves. Answers
/// the number of cycles. `entering` and `leaving` have a word for each field.
pub(crate) fn clock_tapped<
    T: AtomTemplate,
    const DEPTH: usize,
    const SL: usize,
    const SF: usize,
    H: HashUnits,
    S: Sink,
>(
    tapped: &mut Tapped<T, DEPTH, SL, SF>,
    trace: &Trace,
    hash: &H,
    lines: &mut Lines,
    sink: &mut S,
    entering: &mut Packet,
    leaving: &mut Packet,
) -> Result<u64, SinkFault>
    requires words { length tapped.old.machine.config.fields ≤ lines.old.words }
    requires each { All (λ p. length p.1 ≡ length tapped.old.machine.config.fields) trace.now }
    requires entering { length entering.old ≡ length tapped.old.machine.config.fields }
    requires leaving { length leaving.old ≡ length tapped.old.machine.config.fields }
    requires cycles { cycles_of trace.now + length tapped.old.machine.config.stages < 2 ^ 64 }
    ensures clocked { OnOk result (TappedOver (H.meaning hash.now) (tapped_form (λ b. form (b.vtable, b.value)) tapped.old.machine tapped.old.cycle tapped.old.taps.items) (tapped_form (λ b. form (b.vtable, b.value)) tapped.new.machine tapped.new.cycle tapped.new.taps.items) (S.held sink.old) (S.held sink.new) 0 (entries trace.now ++ drain tapped.old.machine.config)) }
    ensures part { OnErr result (IsPart (S.held sink.old) (S.held sink.new) (packet_lines 0 (left_over (H.meaning hash.now) tapped.old.machine (entries trace.now ++ drain tapped.old.machine.config)))) }
    ensures cause { HasCause (S.faults sink.old) (S.faults sink.new) result }
    ensures cycles { IfOk result (λ cycles. cycles ≡ length (entries trace.now ++ drain tapped.old.machine.config)) }
    ensures config { tapped.new.machine.config ≡ tapped.old.machine.config }
    ensures same { lines.new ≡ lines.old }
{
    let mut number = 0u64;
    for k in 0..trace.packets() {
        let gap = u64::from(trace.gap(k));
        trace.fill(k, entering);
        let words = entering.words();
        let Ok(()) = clock_packet(tapped, number, gap, words, leaving, lines, hash, sink) else {
            return Err(SinkFault);
        };
        number += gap + 1;
    }
    let depth = tapped.machine().config().stages() as u64;
    let Ok(()) = clock_idle(tapped, number, depth, leaving, lines, hash, sink) else {
        return Err(SinkFault);
    };
    Ok(number + depth)
}

// The idle cycles before a packet, and the cycle in which it enters.
fn clock_packet<
    T: AtomTemplate,
    const DEPTH: usize,
    const SL: usize,
    const SF: usize,
    H: HashUnits,
    S: Sink,
>(
    tapped: &mut Tapped<T, DEPTH, SL, SF>,
    number: u64,
    gap: u64,
    words: &[u32],
    leaving: &mut Packet,
    lines: &mut Lines,
    hash: &H,
    sink: &mut S,
) -> Result<(), SinkFault>
    requires entering { length words.now ≡ length tapped.old.machine.config.fields }
    requires leaving { length leaving.old ≡ length tapped.old.machine.config.fields }
    requires words { length tapped.old.machine.config.fields ≤ lines.old.words }
    requires few { number + gap < 2 ^ 64 }
    ensures clocked { OnOk result (TappedOver (H.meaning hash.now) (tapped_form (λ b. form (b.vtable, b.value)) tapped.old.machine tapped.old.cycle tapped.old.taps.items) (tapped_form (λ b. form (b.vtable, b.value)) tapped.new.machine tapped.new.cycle tapped.new.taps.items) (S.held sink.old) (S.held sink.new) number (replicate gap None ++ Some words.now ∷ [])) }
    ensures part { OnErr result (IsPart (S.held sink.old) (S.held sink.new) (packet_lines number (left_over (H.meaning hash.now) tapped.old.machine (replicate gap None ++ Some words.now ∷ [])))) }
    ensures cause { HasCause (S.faults sink.old) (S.faults sink.new) result }
    ensures config { tapped.new.machine.config ≡ tapped.old.machine.config }
    ensures size { length leaving.new ≡ length leaving.old }
    ensures same { lines.new ≡ lines.old }
{
    let Ok(()) = clock_idle(tapped, number, gap, leaving, lines, hash, sink) else {
        return Err(SinkFault);
    };
    let number = number + gap;
    clock_once(tapped, number, Some(words), leaving, lines, hash, sink)
}

// So many idle cycles.
fn clock_idle<
    T: AtomTemplate,
    const DEPTH: usize,
    const SL: usize,
    const SF: usize,
    H: HashUnits,
    S: Sink,
>(
    tapped: &mut Tapped<T, DEPTH, SL, SF>,
    number: u64,
    count: u64,
    leaving: &mut Packet,
    lines: &mut Lines,
    hash: &H,
    sink: &mut S,
) -> Result<(), SinkFault>
    requires leaving { length leaving.old ≡ length tapped.old.machine.config.fields }
    requires words { length tapped.old.machine.config.fields ≤ lines.old.words }
    requires few { number + count < 2 ^ 64 }
    ensures clocked { OnOk result (TappedOver (H.meaning hash.now) (tapped_form (λ b. form (b.vtable, b.value)) tapped.old.machine tapped.old.cycle tapped.old.taps.items) (tapped_form (λ b. form (b.vtable, b.value)) tapped.new.machine tapped.new.cycle tapped.new.taps.items) (S.held sink.old) (S.held sink.new) number (replicate count None)) }
    ensures part { OnErr result (IsPart (S.held sink.old) (S.held sink.new) (packet_lines number (left_over (H.meaning hash.now) tapped.old.machine (replicate count None)))) }
    ensures cause { HasCause (S.faults sink.old) (S.faults sink.new) result }
    ensures config { tapped.new.machine.config ≡ tapped.old.machine.config }
    ensures size { length leaving.new ≡ length leaving.old }
    ensures same { lines.new ≡ lines.old }
{
    for done in 0..count {
        let now = number + done;
        let Ok(()) = clock_once(tapped, now, None, leaving, lines, hash, sink) else {
            return Err(SinkFault);
        };
    }
    Ok(())
}

// One cycle, and the line of the packet that leaves in it.
fn clock_once<
    T: AtomTemplate,
    const DEPTH: usize,
    const SL: usize,
    const SF: usize,
    H: HashUnits,
    S: Sink,
>(
    tapped: &mut Tapped<T, DEPTH, SL, SF>,
    number: u64,
    entering: Option<&[u32]>,
    leaving: &mut Packet,
    lines: &mut Lines,
    hash: &H,
    sink: &mut S,
) -> Result<(), SinkFault>
    requires entering { HasWords (length tapped.old.machine.config.fields) (option_map (λ fields. fields.now) entering) }
    requires leaving { length leaving.old ≡ length tapped.old.machine.config.fields }
    requires words { length tapped.old.machine.config.fields ≤ lines.old.words }
    ensures clocked { OnOk result (TappedOver (H.meaning hash.now) (tapped_form (λ b. form (b.vtable, b.value)) tapped.old.machine tapped.old.cycle tapped.old.taps.items) (tapped_form (λ b. form (b.vtable, b.value)) tapped.new.machine tapped.new.cycle tapped.new.taps.items) (S.held sink.old) (S.held sink.new) number (option_map (λ fields. fields.now) entering.entry ∷ [])) }
    ensures part { OnErr result (IsPart (S.held sink.old) (S.held sink.new) (packet_lines number (left_over (H.meaning hash.now) tapped.old.machine (option_map (λ fields. fields.now) entering.entry ∷ [])))) }
    ensures cause { HasCause (S.faults sink.old) (S.faults sink.new) result }
    ensures config { tapped.new.machine.config ≡ tapped.old.machine.config }
    ensures size { length leaving.new ≡ length leaving.old }
    ensures same { lines.new ≡ lines.old }
{
    if tapped.cycle(hash, entering, leaving) {
        lines.packet(sink, number, leaving.words())
    } else {
        Ok(())
    }
}
