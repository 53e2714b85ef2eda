ghost use Rattle.std.specs.Prelude.{◌≡◌, ◌+◌, ◌≤◌, [], All, length};
ghost use Rattle.banzai_machine.specs.State.{Stands};
ghost use Rattle.dom_io.specs.Causes.{HasCause};
ghost use Rattle.dom_io.specs.Held.{Puts};
ghost use Rattle.dom_report.specs.RunReport.{array_names};
ghost use Rattle.dom_report.specs.WatchReport.{IsFor, moment_lines, watch_report};
ghost use Rattle.trace_text.specs.Lines.{joined};
ghost use Rattle.trace_text.specs.Trace.{cycles_of, entries, most_cycles};

use crate::clocking::clock;
use crate::each_cycle::EachCycle;
use crate::entering::Cursor;
use crate::moment::put_moment;
use atom_traits::AtomTemplate;
use banzai_machine::Machine;
use dom_io::{Sink, SinkFault};
use dom_words::{HashUnits, Packet};
use trace_text::{Lines, Trace};

/// Clocks a machine that stands at its beginning over the trace's entries and the drain, and puts the report of `watch`, one
/// line a put (docs/FORMATS.md, "The report of `watch`"). `entering` and `leaving` have a word for each field. Takes no
/// memory.
pub fn put_watch_report<
    T: AtomTemplate,
    const DEPTH: usize,
    const SL: usize,
    const SF: usize,
    H: HashUnits,
    S: Sink,
>(
    machine: &mut Machine<T, DEPTH, SL, SF>,
    lines: Lines,
    trace: &Trace,
    entering: &mut Packet,
    leaving: &mut Packet,
    hash: &H,
    sink: &mut S,
) -> Result<(), SinkFault>
    requires start { Stands (H.meaning hash.now) [] machine.old }
    requires fields { length machine.old.config.fields ≤ lines.words }
    requires containers { machine.old.config.containers ≤ lines.words }
    requires arrays { lines.arrays ≡ array_names machine.old.config }
    requires each { All (λ p. length p.1 ≡ length machine.old.config.fields) trace.now }
    requires entering { length entering.old ≡ length machine.old.config.fields }
    requires leaving { length leaving.old ≡ length machine.old.config.fields }
    requires cycles { cycles_of trace.now + length machine.old.config.stages ≤ most_cycles }
    ensures bytes { Puts (S.held sink.old) (S.held sink.new) (watch_report (H.meaning hash.now) machine.old.config (entries trace.now)) result }
    ensures cause { HasCause (S.faults sink.old) (S.faults sink.new) result }
    ensures config { machine.new.config ≡ machine.old.config }
{
    let mut packets = Cursor::of(trace);
    let mut moments = Moments { lines };
    let clocked = clock(
        machine,
        &mut packets,
        &mut moments,
        hash,
        sink,
        entering,
        leaving,
    );
    let Ok(cycles) = clocked else {
        return Err(SinkFault);
    };
    moments
        .lines
        .done(sink, trace.packets() as u64, Some(cycles))
}

// The lines of each cycle.
#[derive(Drop)]
struct Moments {
    lines: Lines,
}

impl<T: AtomTemplate, const DEPTH: usize, const SL: usize, const SF: usize> EachCycle<
    Machine<T, DEPTH, SL, SF>,
> for Moments {
    ghost fits = { λ moments p. IsFor moments.lines p };

    ghost bytes = { λ _ cycle. joined (moment_lines cycle) };

    ghost after = { λ moments _. moments };

    fn put_cycle<S: Sink>(
        &mut self,
        machine: &Machine<T, DEPTH, SL, SF>,
        number: u64,
        left: Option<&[u32]>,
        sink: &mut S,
    ) -> Result<(), SinkFault> {
        put_moment(machine, number, left, &mut self.lines, sink)
    }
}
