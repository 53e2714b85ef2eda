ghost use Rattle.std.specs.Prelude.{◌≡◌, ◌+◌, ◌≤◌, [], ◌++◌, All, OnErr, OnOk, length};
ghost use Rattle.banzai_machine.specs.Pipe.{drain, emitted};
ghost use Rattle.banzai_machine.specs.State.{Stands};
ghost use Rattle.dom_io.specs.Causes.{HasCause};
ghost use Rattle.dom_io.specs.Held.{Puts};
ghost use Rattle.dom_report.specs.Driving.{StopsAtLine};
ghost use Rattle.dom_report.specs.Report.{packet_lines};
ghost use Rattle.trace_text.specs.Trace.{cycles_of, entries, most_cycles};

use crate::clocking::clock;
use crate::entering::Cursor;
use atom_traits::AtomTemplate;
use banzai_machine::Machine;
use dom_io::{Sink, SinkFault};
use dom_words::{HashUnits, Packet};
use trace_text::{Lines, Trace};

/// Clocks a machine that stands at its beginning over the trace's entries and the drain, and puts the line of each packet
/// that leaves, one line a put, and nothing else. Where a line fails, the machine stands behind the cycle of that line.
/// `entering` and `leaving` have a word for each field. Takes no memory.
pub fn drive<
    T: AtomTemplate,
    const DEPTH: usize,
    const SL: usize,
    const SF: usize,
    H: HashUnits,
    S: Sink,
>(
    machine: &mut Machine<T, DEPTH, SL, SF>,
    trace: &Trace,
    hash: &H,
    lines: &mut Lines,
    sink: &mut S,
    entering: &mut Packet,
    leaving: &mut Packet,
) -> Result<(), SinkFault>
    requires start { Stands (H.meaning hash.now) [] machine.old }
    requires words { length machine.old.config.fields ≤ lines.old.words }
    requires each { All (λ p. length p.1 ≡ length machine.old.config.fields) trace.now }
    requires entering { length entering.old ≡ length machine.old.config.fields }
    requires leaving { length leaving.old ≡ length machine.old.config.fields }
    requires cycles { cycles_of trace.now + length machine.old.config.stages ≤ most_cycles }
    ensures stands { OnOk result (Stands (H.meaning hash.now) (entries trace.now ++ drain machine.old.config) machine.new) }
    ensures bytes { Puts (S.held sink.old) (S.held sink.new) (packet_lines 0 (emitted (H.meaning hash.now) machine.old.config (entries trace.now ++ drain machine.old.config))) result }
    ensures stops { OnErr result (StopsAtLine (H.meaning hash.now) (entries trace.now ++ drain machine.old.config) machine.new (S.held sink.old) (S.held sink.new)) }
    ensures cause { HasCause (S.faults sink.old) (S.faults sink.new) result }
    ensures config { machine.new.config ≡ machine.old.config }
    ensures same { OnOk result (lines.new ≡ lines.old) }
{
    let mut packets = Cursor::of(trace);
    let Ok(_) = clock(machine, &mut packets, lines, hash, sink, entering, leaving) else {
        return Err(SinkFault);
    };
    Ok(())
}
