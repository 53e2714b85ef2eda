ghost use Rattle.std.specs.Prelude.{◌≡◌, ◌≤◌, ℕ, All, List, drop, length};
ghost use Rattle.dom_report.specs.Clocking.{IsNext};

use dom_words::Packet;
use trace_text::Trace;

/// Packets, one after another, each with the idle cycles before it.
pub(crate) trait Packets {
    /// Those that are still to come.
    ghost rest: { Self → List (ℕ × List ℕ) };

    /// Writes the words of the next one over those of `packet`, and answers the idle cycles before it; `None` where none is
    /// left.
    fn next_packet(&mut self, packet: &mut Packet) -> Option<u64>
        requires { All (λ p. length p.1 ≡ length packet.old) (rest self.old) }
        ensures next { IsNext (rest self.old) result packet.new (rest self.new) }
        ensures size { length packet.new ≡ length packet.old };
}

/// The packets of a trace, from one of them on.
#[derive(Drop)]
pub(crate) struct Cursor<'a> {
    trace: &'a Trace,
    next: usize,
    ghost within: { next ≤ length trace.now },
}

impl<'a> Cursor<'a> {
    /// All packets of a trace.
    pub(crate) fn of(trace: &'a Trace) -> Cursor<'a>
        ensures trace { result.trace.now ≡ trace.entry.now }
        ensures next { result.next ≡ 0 }
    {
        Cursor { trace, next: 0 }
    }
}

impl Packets for Cursor<'_> {
    ghost rest = { λ c. drop c.next c.trace.now };

    fn next_packet(&mut self, packet: &mut Packet) -> Option<u64> {
        if self.next == self.trace.packets() {
            return None;
        }
        let gap = self.trace.gap(self.next);
        self.trace.fill(self.next, packet);
        self.next += 1;
        Some(u64::from(gap))
    }
}
