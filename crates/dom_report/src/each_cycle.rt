ghost use Rattle.std.specs.Prelude.{◌≡◌, ◌<◌, ◌≤◌, ℕ, List, OnErr, length};
ghost use Rattle.std.specs.Option.{option_map};
ghost use Rattle.banzai_config.specs.Parts.{PartsForm};
ghost use Rattle.banzai_machine.specs.State.{HasWords};
ghost use Rattle.dom_io.specs.Causes.{HasCause};
ghost use Rattle.dom_io.specs.Held.{Puts};
ghost use Rattle.dom_report.specs.Clocking.{Cycle};
ghost use Rattle.dom_report.specs.Report.{cycle_line};

use crate::clocked::Clocked;
use dom_io::{Sink, SinkFault};
use trace_text::Lines;

/// What is done after each cycle of what is clocked.
pub(crate) trait EachCycle<M: Clocked> {
    /// It can be done over a machine with this configuration.
    ghost fits: { Self → PartsForm → Type 0 };

    /// The bytes that it puts after a cycle.
    ghost bytes: { Self → Cycle → List ℕ };

    /// What becomes of it then.
    ghost after: { Self → Cycle → Self };

    /// Does what is to be done after the cycle with this number, in which a packet with these words left, if one did.
    fn put_cycle<S: Sink>(
        &mut self,
        machine: &M,
        number: u64,
        left: Option<&[u32]>,
        sink: &mut S,
    ) -> Result<(), SinkFault>
        requires fits { fits self.old (M.machine machine.now).config }
        requires left { HasWords (length (M.machine machine.now).config.fields) (option_map (λ words. words.now) left) }
        ensures bytes { Puts (S.held sink.old) (S.held sink.new) (bytes self.old (record { number = number; left = option_map (λ words. words.now) left.entry; machine = M.machine machine.now })) result }
        ensures some { OnErr result (0 < length (bytes self.old (record { number = number; left = option_map (λ words. words.now) left.entry; machine = M.machine machine.now }))) }
        ensures cause { HasCause (S.faults sink.old) (S.faults sink.new) result }
        ensures after { self.new ≡ after self.old (record { number = number; left = option_map (λ words. words.now) left.entry; machine = M.machine machine.now }) }
        ensures fits { fits self.new (M.machine machine.now).config };
}

/// The line of the packet that left.
impl<M: Clocked> EachCycle<M> for Lines {
    ghost fits = { λ lines p. length p.fields ≤ lines.words };

    ghost bytes = { λ _ cycle. cycle_line cycle.number cycle.left };

    ghost after = { λ lines _. lines };

    fn put_cycle<S: Sink>(
        &mut self,
        _machine: &M,
        number: u64,
        left: Option<&[u32]>,
        sink: &mut S,
    ) -> Result<(), SinkFault> {
        match left {
            Some(words) => self.packet(sink, number, words),
            None => Ok(()),
        }
    }
}
