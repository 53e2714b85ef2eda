ghost use Rattle.std.specs.Prelude.{◌≡◌, length};
ghost use Rattle.std.specs.Option.{option_map};
ghost use Rattle.banzai_machine.specs.Pipe.{leaves_with};
ghost use Rattle.banzai_machine.specs.State.{HasWords, LeavesAs, MachineForm};
ghost use Rattle.dom_report.specs.Clocking.{after_cycle};

use atom_traits::AtomTemplate;
use banzai_machine::Machine;
use dom_words::{HashUnits, Packet};

/// What is clocked: a machine, or what has one in it.
pub(crate) trait Clocked {
    /// The machine.
    ghost machine: { Self → MachineForm };

    /// The number of its stages.
    fn stages(&self) -> u64
        ensures { result ≡ length (machine self.now).config.stages };

    /// One cycle of the machine. `entering` and `leaving` have a word for each field. Answers whether a packet left, whose
    /// field words are then in `leaving`.
    fn run_cycle<H: HashUnits>(
        &mut self,
        hash: &H,
        entering: Option<&[u32]>,
        leaving: &mut Packet,
    ) -> bool
        requires entering { HasWords (length (machine self.old).config.fields) (option_map (λ fields. fields.now) entering) }
        requires leaving { length leaving.old ≡ length (machine self.old).config.fields }
        ensures machine { machine self.new ≡ after_cycle (H.meaning hash.now) (machine self.old) (option_map (λ fields. fields.now) entering.entry) }
        ensures left { LeavesAs (leaves_with (H.meaning hash.now) (machine self.old).config (machine self.old).row (option_map (λ fields. fields.now) entering.entry)) result leaving.old leaving.new }
        ensures size { length leaving.new ≡ length leaving.old };
}

impl<T: AtomTemplate, const DEPTH: usize, const SL: usize, const SF: usize> Clocked
    for Machine<T, DEPTH, SL, SF> {
    ghost machine = { λ m. m };

    fn stages(&self) -> u64 {
        self.config().stages() as u64
    }

    fn run_cycle<H: HashUnits>(
        &mut self,
        hash: &H,
        entering: Option<&[u32]>,
        leaving: &mut Packet,
    ) -> bool {
        self.cycle(hash, entering, leaving)
    }
}
