ghost use Rattle.std.specs.Prelude.{◌≡◌, length, map};
ghost use Rattle.dom_io.specs.Causes.{HasCause};
ghost use Rattle.dom_io.specs.Held.{Puts};
ghost use Rattle.dom_report.specs.ProbeReport.{IsReady, probe_end, probe_report, tap_lines};
ghost use Rattle.dom_report.specs.RunReport.{array_names};
ghost use Rattle.probe_taps.specs.Attached.{attached_forms};
ghost use Rattle.trace_text.specs.Lines.{joined};
ghost use Rattle.trace_text.specs.Trace.{entries};

use crate::run_report::{put_places, put_words};
use crate::tapping::clock_tapped;
use atom_traits::AtomTemplate;
use dom_io::{Sink, SinkFault};
use dom_words::{HashUnits, Packet};
use probe_taps::Tapped;
use trace_text::{Lines, Trace};

/// Clocks a machine that stands at its beginning under so many taps over the trace's entries and the drain, and puts the
/// report of `probe`, one line a put (docs/FORMATS.md, "The report of `probe`"). Takes no memory.
pub fn put_probe_report<
    T: AtomTemplate,
    const DEPTH: usize,
    const SL: usize,
    const SF: usize,
    H: HashUnits,
    S: Sink,
>(
    tapped: &mut Tapped<T, DEPTH, SL, SF>,
    taps: usize,
    lines: &mut Lines,
    trace: &Trace,
    entering: &mut Packet,
    leaving: &mut Packet,
    hash: &H,
    sink: &mut S,
) -> Result<(), SinkFault>
    requires ready { IsReady (H.meaning hash.now) tapped.old.machine lines.old trace.now entering.old leaving.old }
    requires cycle { tapped.old.cycle ≡ 0 }
    requires taps { taps ≡ length tapped.old.taps.items }
    ensures bytes { Puts (S.held sink.old) (S.held sink.new) (probe_report (H.meaning hash.now) (attached_forms (λ b. form (b.vtable, b.value)) tapped.old.taps.items) tapped.old.machine.config (entries trace.now)) result }
    ensures cause { HasCause (S.faults sink.old) (S.faults sink.new) result }
    ensures config { tapped.new.machine.config ≡ tapped.old.machine.config }
{
    let Ok(()) = lines.head(sink, "cycle") else {
        return Err(SinkFault);
    };
    let Ok(cycles) = clock_tapped(tapped, trace, hash, lines, sink, entering, leaving) else {
        return Err(SinkFault);
    };
    put_end(tapped, taps, lines, trace.packets() as u64, cycles, sink)
}

// The lines behind the packets: the state words that are not 0, the stages of the arrays, the numbers of the taps, and those of
// packets and of cycles.
fn put_end<T: AtomTemplate, const DEPTH: usize, const SL: usize, const SF: usize, S: Sink>(
    tapped: &Tapped<T, DEPTH, SL, SF>,
    taps: usize,
    lines: &mut Lines,
    packets: u64,
    cycles: u64,
    sink: &mut S,
) -> Result<(), SinkFault>
    requires arrays { lines.old.arrays ≡ array_names tapped.now.machine.config }
    requires taps { taps ≡ length tapped.now.taps.items }
    ensures bytes { Puts (S.held sink.old) (S.held sink.new) (joined (probe_end tapped.now.machine.config tapped.now.machine.row.state (map (λ a. a.tap.number) (attached_forms (λ b. form (b.vtable, b.value)) tapped.now.taps.items)) packets cycles)) result }
    ensures cause { HasCause (S.faults sink.old) (S.faults sink.new) result }
{
    let machine = tapped.machine();
    let Ok(()) = put_words(machine, lines, sink) else {
        return Err(SinkFault);
    };
    let Ok(()) = put_places(machine, lines, sink) else {
        return Err(SinkFault);
    };
    let Ok(()) = put_taps(tapped, taps, lines, sink) else {
        return Err(SinkFault);
    };
    lines.done(sink, packets, Some(cycles))
}

// The lines of the taps' numbers.
fn put_taps<T: AtomTemplate, const DEPTH: usize, const SL: usize, const SF: usize, S: Sink>(
    tapped: &Tapped<T, DEPTH, SL, SF>,
    taps: usize,
    lines: &mut Lines,
    sink: &mut S,
) -> Result<(), SinkFault>
    requires { taps ≡ length tapped.now.taps.items }
    ensures bytes { Puts (S.held sink.old) (S.held sink.new) (joined (tap_lines 1 (map (λ a. a.tap.number) (attached_forms (λ b. form (b.vtable, b.value)) tapped.now.taps.items)))) result }
    ensures cause { HasCause (S.faults sink.old) (S.faults sink.new) result }
    ensures same { lines.new ≡ lines.old }
{
    for position in 0..taps {
        let number = tapped.tell(position);
        let Ok(()) = lines.tap(sink, position as u64 + 1, number) else {
            return Err(SinkFault);
        };
    }
    Ok(())
}
