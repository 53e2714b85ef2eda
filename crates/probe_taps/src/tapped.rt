ghost use Rattle.std.specs.Prelude.{◌≡◌, ◌<◌, ◌≤◌, List, [], ◌∷◌, ◌++◌, Some, length, map, slice_get, slice_set, IfErr, IfOk, OnErr, OnOk};
ghost use Rattle.std.specs.Option.{option_map};
ghost use Rattle.banzai_config.specs.Action.{Entry};
ghost use Rattle.banzai_machine.specs.Pipe.{cycle_with, leaves_with};
ghost use Rattle.banzai_machine.specs.State.{HasWords, LeavesAs, Stands};
ghost use Rattle.banzai_machine.specs.Touches.{cycle_touches};
ghost use Rattle.probe_taps.specs.Taps.{one_more};
ghost use Rattle.probe_taps.specs.Attached.{AttachedForm, after_cycle, attached_forms, tapped_form};
ghost use Rattle.probe_taps.specs.Runs.{IsTapped};

use crate::attached::Attached;
use crate::show::{number, show_all};
use crate::tap::Tap;
use atom_traits::AtomTemplate;
use banzai_machine::Machine;
use dom_words::{HashUnits, Memory, Packet};
use std::alloc::Global;
use std::mem;

/// A machine with taps, each before one of its stages. What the machine does is what it does with none.
#[derive(Drop)]
pub struct Tapped<T: AtomTemplate, const DEPTH: usize, const SL: usize, const SF: usize> {
    machine: Machine<T, DEPTH, SL, SF>,
    cycle: u64,
    taps: Vec<Attached<Box<dyn Tap>, DEPTH>>,
}

impl<T: AtomTemplate, const DEPTH: usize, const SL: usize, const SF: usize> Tapped<
    T,
    DEPTH,
    SL,
    SF,
> {
    /// A machine with no taps so far. Its cycles are counted from here, from 0 up to the greatest number of 64 bits, where
    /// the count stays. Takes no memory.
    pub fn new(alloc: Global, machine: Machine<T, DEPTH, SL, SF>) -> Tapped<T, DEPTH, SL, SF>
        ensures machine { result.machine ≡ machine }
        ensures cycle { result.cycle ≡ 0 }
        ensures taps { attached_forms (λ b. form b) result.taps.items ≡ [] }
    {
        Tapped {
            machine,
            cycle: 0,
            taps: Vec::new(alloc),
        }
    }

    /// Attaches a tap before a stage, behind the taps so far, and answers its position, from 0. Where there is no memory
    /// the box comes back, and nothing has changed.
    pub fn attach(&mut self, stage: u32, tap: Box<dyn Tap>) -> Result<usize, (Box<dyn Tap>, Memory)>
        requires some { 1 ≤ stage }
        requires within { stage ≤ DEPTH }
        ensures position { IfOk result (λ position. position ≡ length self.old.taps.items) }
        ensures ok { OnOk result (attached_forms (λ b. form b) self.new.taps.items ≡ attached_forms (λ b. form b) self.old.taps.items ++ record { stage = stage; tap = form tap } ∷ []) }
        ensures back { IfErr result (λ err. err.0 ≡ tap) }
        ensures err { OnErr result (attached_forms (λ b. form b) self.new.taps.items ≡ attached_forms (λ b. form b) self.old.taps.items) }
        ensures machine { self.new.machine ≡ self.old.machine }
        ensures cycle { self.new.cycle ≡ self.old.cycle }
    {
        let position = self.taps.len();
        match self.taps.push(Attached { stage, tap }) {
            Ok(()) => Ok(position),
            Err(refused) => Err((refused.value.tap, Memory)),
        }
    }

    /// Puts a tap in the place of the one at this position, before the same stage, and hands the old box back with its
    /// number. Takes no memory.
    pub fn swap(&mut self, position: usize, tap: Box<dyn Tap>) -> Box<dyn Tap>
        requires { position < length self.old.taps.items }
        ensures back { slice_get (map (λ a. a.tap) (attached_forms (λ b. form b) self.old.taps.items)) position ≡ Some (form result) }
        ensures taps { map (λ a. a.tap) (attached_forms (λ b. form b) self.new.taps.items) ≡ slice_set (map (λ a. a.tap) (attached_forms (λ b. form b) self.old.taps.items)) position (form tap) }
        ensures stages { map (λ a. a.stage) (attached_forms (λ b. form b) self.new.taps.items) ≡ map (λ a. a.stage) (attached_forms (λ b. form b) self.old.taps.items) }
        ensures machine { self.new.machine ≡ self.old.machine }
        ensures cycle { self.new.cycle ≡ self.old.cycle }
    {
        mem::replace(&mut self.taps[position].tap, tap)
    }

    /// One cycle: first each tap, in order of position, sees the packet before its stage, where there is one, and then the
    /// machine does its cycle. Takes no memory.
    pub fn cycle<H: HashUnits>(
        &mut self,
        hash: &H,
        entering: Option<&[u32]>,
        leaving: &mut Packet,
    ) -> bool
        requires entering { HasWords (length self.old.machine.config.fields) (option_map (λ fields. fields.now) entering) }
        requires leaving { length leaving.old ≡ length self.old.machine.config.fields }
        ensures config { self.new.machine.config ≡ self.old.machine.config }
        ensures row { self.new.machine.row ≡ cycle_with (H.meaning hash.now) self.old.machine.config self.old.machine.row (option_map (λ fields. fields.now) entering.entry) }
        ensures touches { self.new.machine.touches ≡ cycle_touches self.old.machine.config self.old.machine.row.registers self.old.machine.row.state }
        ensures left { LeavesAs (leaves_with (H.meaning hash.now) self.old.machine.config self.old.machine.row (option_map (λ fields. fields.now) entering.entry)) result leaving.old leaving.new }
        ensures size { length leaving.new ≡ length leaving.old }
        ensures stands { (entries : List Entry) → Stands (H.meaning hash.now) entries self.old.machine → Stands (H.meaning hash.now) (entries ++ option_map (λ fields. fields.now) entering.entry ∷ []) self.new.machine }
        ensures cycle { self.new.cycle ≡ one_more self.old.cycle }
        ensures taps { attached_forms (λ b. form b) self.new.taps.items ≡ map (after_cycle self.old.cycle self.old.machine.row.registers) (attached_forms (λ b. form b) self.old.taps.items) }
        ensures run { (earlier later : List Entry) (taps : List AttachedForm)
            → IsTapped (H.meaning hash.now) earlier later taps (tapped_form (λ b. form b) self.old.machine self.old.cycle self.old.taps.items)
            → IsTapped (H.meaning hash.now) earlier (later ++ option_map (λ fields. fields.now) entering.entry ∷ []) taps (tapped_form (λ b. form b) self.new.machine self.new.cycle self.new.taps.items) }
    {
        show_all(self.taps.as_mut_slice(), self.cycle, &self.machine);
        let told = self.machine.cycle(hash, entering, leaving);
        self.cycle = self.cycle.saturating_add(1);
        told
    }

    /// The number of the tap at this position.
    pub fn tell(&self, position: usize) -> u64
        requires { position < length self.now.taps.items }
        ensures { slice_get (map (λ a. a.tap.number) (attached_forms (λ b. form b) self.now.taps.items)) position ≡ Some result }
    {
        number(&self.taps[position])
    }

    /// The machine.
    pub fn machine(&self) -> &Machine<T, DEPTH, SL, SF>
        ensures { result.now ≡ self.now.machine }
    {
        &self.machine
    }
}
