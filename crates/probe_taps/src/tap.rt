ghost use Rattle.std.specs.Prelude.{◌≡◌};
ghost use Rattle.probe_taps.specs.Taps.{TapForm, counting, has_seen};

use std::marker::Model;

/// Who looks on: holds a number, and has a rule that makes the next number of that number, a cycle, and the containers of
/// the packet that is seen in it.
pub trait Tap: Drop {
    /// The number and the rule.
    ghost form: { Self → TapForm };

    /// Sees the containers of a packet in a cycle: the rule's answer is the new number, and the rule stays.
    fn see(&mut self, cycle: u64, words: &[u32])
        ensures { form self.new ≡ has_seen cycle words.now (form self.old) };

    /// The number.
    fn tell(&self) -> u64
        ensures { result ≡ (form self.now).number };
}

/// Counts the packets, up to the greatest number of 64 bits, where it stays. It is seen as its number.
#[derive(Debug, Drop)]
pub struct CountTap {
    count: u64,
}

impl Model for CountTap {
    ghost use Rattle.std.specs.Prelude.{ℕ};

    ghost Value = { ℕ };

    ghost view = { λ tap. tap.count };
}

impl CountTap {
    /// None so far.
    pub fn new() -> CountTap
        ensures { result ≡ 0 }
    {
        CountTap { count: 0 }
    }
}

impl Tap for CountTap {
    ghost form = { counting };

    fn see(&mut self, _cycle: u64, _words: &[u32]) {
        self.count = self.count.saturating_add(1);
    }

    fn tell(&self) -> u64 {
        self.count
    }
}
