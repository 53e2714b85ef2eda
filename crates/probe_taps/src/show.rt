ghost use Rattle.std.specs.Prelude.{◌≡◌, map};
ghost use Rattle.probe_taps.specs.Attached.{after_cycle, attached_form, attached_forms};

use crate::attached::Attached;
use crate::tap::Tap;
use atom_traits::AtomTemplate;
use banzai_machine::Machine;

// Shows a tap the packet before its stage, if there is one.
fn show<T: AtomTemplate, const DEPTH: usize, const SL: usize, const SF: usize>(
    attached: &mut Attached<Box<dyn Tap>, DEPTH>,
    cycle: u64,
    machine: &Machine<T, DEPTH, SL, SF>,
)
    ensures { attached_form (λ b. form b) attached.new ≡ after_cycle cycle machine.now.row.registers (attached_form (λ b. form b) attached.old) }
{
    let at = attached.stage as usize - 1;
    if let Some(words) = machine.register(at) {
        attached.tap.see(cycle, words);
    }
}

// Shows each tap, in order, the packet before its stage, where there is one.
pub(crate) fn show_all<T: AtomTemplate, const DEPTH: usize, const SL: usize, const SF: usize>(
    taps: &mut [Attached<Box<dyn Tap>, DEPTH>],
    cycle: u64,
    machine: &Machine<T, DEPTH, SL, SF>,
)
    ensures { attached_forms (λ b. form b) taps.new ≡ map (after_cycle cycle machine.now.row.registers) (attached_forms (λ b. form b) taps.old) }
{
    for k in 0..taps.len() {
        show(&mut taps[k], cycle, machine);
    }
}

// The number of a tap.
pub(crate) fn number<const DEPTH: usize>(attached: &Attached<Box<dyn Tap>, DEPTH>) -> u64
    ensures { result ≡ (form attached.now.tap).number }
{
    attached.tap.tell()
}
