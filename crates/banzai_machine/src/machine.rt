ghost use Rattle.std.specs.Prelude.{◌≡◌, ◌<◌, ◌≤◌, List, [], ◌∷◌, ◌++◌, None, true, length, map, slice_index, slice_index_or, All, IfOk, IfSome};
ghost use Rattle.std.specs.Option.{option_map};
ghost use Rattle.dom_words.specs.State.{array_of};
ghost use Rattle.pipeline_law.specs.Order.{IsOrder};
ghost use Rattle.banzai_config.specs.Action.{Entry};
ghost use Rattle.banzai_config.specs.Checked.{shape_with};
ghost use Rattle.banzai_config.specs.Legal.{LegalFor};
ghost use Rattle.banzai_machine.specs.Alone.{IsMoment};
ghost use Rattle.banzai_machine.specs.Busy.{busy_from};
ghost use Rattle.banzai_machine.specs.Fired.{Firing, IsFired, firings_from};
ghost use Rattle.banzai_machine.specs.Kept.{FitsMost, IsKept, ring_row, set_flags};
ghost use Rattle.banzai_machine.specs.Pipe.{cycle_with, leaves_with, pipe};
ghost use Rattle.banzai_machine.specs.Ring.{ring};
ghost use Rattle.banzai_machine.specs.Runnable.{IsRunnable, array_sizes};
ghost use Rattle.banzai_machine.specs.State.{HasWords, IsNew, LeavesAs, Stands};
ghost use Rattle.banzai_machine.specs.Touches.{AreOnce, cycle_touches};

use crate::make::{arrays, busy, flags, zeros};
use crate::ring::{advance, exchange, place};
use crate::touch::Touch;
use crate::touches::Touches;
use atom_traits::AtomTemplate;
use banzai_config::Config;
use dom_words::{HashUnits, Memory, Packet};
use std::alloc::Global;
use std::marker::Model;

// One cycle, on the fields of a machine.
fn turn<T: AtomTemplate, H: HashUnits>(
    config: &Config<T>,
    hash: &H,
    entering: Option<&[u32]>,
    busy: &[usize],
    position: &mut usize,
    in_flight: &mut usize,
    filled: &mut Vec<bool>,
    words: &mut Vec<u32>,
    arrays: &mut Vec<Packet>,
    touches: &mut Touches,
    leaving: &mut Packet,
) -> bool
    requires runs { IsRunnable config.now }
    requires kept { IsKept config.now position.old filled.old.items words.old.items arrays.old.items touches.old }
    requires busy { busy.now ≡ busy_from 0 config.now.stages }
    requires flight { in_flight.old ≡ set_flags filled.old.items }
    requires fields { FitsMost config.now.containers (option_map (λ fields. fields.now) entering) }
    requires shown { length leaving.old ≡ length config.now.outputs }
    ensures kept { IsKept config.now position.new filled.new.items words.new.items arrays.new.items touches.new }
    ensures flight { in_flight.new ≡ set_flags filled.new.items }
    ensures row { ring_row config.now position.new filled.new.items words.new.items arrays.new.items ≡ cycle_with (H.meaning hash.now) config.now (ring_row config.now position.old filled.old.items words.old.items arrays.old.items) (option_map (λ fields. fields.now) entering.entry) }
    ensures left { LeavesAs (leaves_with (H.meaning hash.now) config.now (ring_row config.now position.old filled.old.items words.old.items arrays.old.items) (option_map (λ fields. fields.now) entering.entry)) result leaving.old leaving.new }
    ensures touches { touches.new.list ≡ cycle_touches config.now (ring config.now.containers position.old filled.old.items words.old.items) arrays.old.items }
{
    let width = config.containers() as usize;
    touches.clear();
    advance::<T, H>(
        *in_flight,
        hash,
        config,
        busy,
        width,
        *position,
        filled.as_slice(),
        words.as_mut_slice(),
        arrays.as_mut_slice(),
        touches,
    );
    let depth = config.stages();
    let oldest = place(*position, depth - 1, depth);
    let told = exchange(
        config,
        entering,
        oldest,
        width,
        in_flight,
        filled.as_mut_slice(),
        words.as_mut_slice(),
        leaving,
    );
    *position = oldest;
    told
}

/// The machine of a configuration with `DEPTH` stages of at most `SL` atoms without and `SF` atoms with state. Register k
/// holds the packet that entered k cycles before the last cycle.
///
/// It is a ring (docs/MACHINE.md): a packet stays in its place from entry to exit, and the stages turn round the ring.
#[derive(Drop)]
pub struct Machine<T: AtomTemplate, const DEPTH: usize, const SL: usize, const SF: usize> {
    config: Config<T>,
    busy: Vec<usize>,
    position: usize,
    in_flight: usize,
    filled: Vec<bool>,
    words: Vec<u32>,
    arrays: Vec<Packet>,
    touches: Touches,
}

impl<T: AtomTemplate, const DEPTH: usize, const SL: usize, const SF: usize> Model
    for Machine<T, DEPTH, SL, SF> {
    ghost use Rattle.std.specs.Prelude.{◌≡◌, length};
    ghost use Rattle.banzai_machine.specs.Busy.{busy_from};
    ghost use Rattle.banzai_machine.specs.Kept.{IsKept, machine_form, set_flags};
    ghost use Rattle.banzai_machine.specs.Runnable.{IsRunnable};
    ghost use Rattle.banzai_machine.specs.State.{MachineForm};
    ghost use Rattle.banzai_machine.specs.StateCode.{machine_code};

    ghost Value = { MachineForm };

    ghost coded = { machine_code };

    ghost view = { λ m. machine_form m.config m.position m.filled.items m.words.items m.arrays.items m.touches.list };

    ghost invariant = { λ m. (length m.config.stages ≡ DEPTH) × IsRunnable m.config × (m.busy.items ≡ busy_from 0 m.config.stages) × (m.in_flight ≡ set_flags m.filled.items) × IsKept m.config m.position m.filled.items m.words.items m.arrays.items m.touches };
}

impl<T: AtomTemplate, const DEPTH: usize, const SL: usize, const SF: usize> Machine<
    T,
    DEPTH,
    SL,
    SF,
> {
    /// A machine at its beginning. It takes all memory that the machine will ever need.
    pub fn new(alloc: Global, config: Config<T>) -> Result<Machine<T, DEPTH, SL, SF>, Memory>
        requires some { 1 ≤ DEPTH }
        requires depth { DEPTH ≤ 65535 }
        requires legal { LegalFor (shape_with T.fits T.CONST_BITS DEPTH SL SF true) config }
        ensures { IfOk result (λ m. IsNew config m) }
    {
        Machine::<T, DEPTH, SL, SF>::of(alloc, config)
    }

    // The machine of a configuration that can be run.
    fn of(alloc: Global, config: Config<T>) -> Result<Machine<T, DEPTH, SL, SF>, Memory>
        requires depth { length config.stages ≡ DEPTH }
        requires runs { IsRunnable config }
        ensures { IfOk result (λ m. IsNew config m) }
    {
        let depth = config.stages();
        let width = config.containers() as usize;
        let active = busy(alloc, &config)?;
        let filled = flags(alloc, depth)?;
        let words = zeros(alloc, depth * width)?;
        let declared = config.arrays();
        let cells = arrays(alloc, declared)?;
        let touches = Touches::new(alloc, declared.len())?;
        Ok(Machine {
            config,
            busy: active,
            position: 0,
            in_flight: 0,
            filled,
            words,
            arrays: cells,
            touches,
        })
    }

    /// The configuration. The machine has a register for each stage, and a word for each element of its arrays.
    pub fn config(&self) -> &Config<T>
        ensures same { result.now ≡ self.now.config }
        ensures depth { length self.now.config.stages ≡ DEPTH }
        ensures few { DEPTH ≤ 65535 }
        ensures registers { length self.now.row.registers ≡ DEPTH }
        ensures sizes { map length self.now.row.state ≡ array_sizes self.now.config }
    {
        &self.config
    }

    /// One cycle: all stages act, everything moves on by one register, and the packet that enters, if one does, comes into
    /// register 0. `entering` and `leaving` have a word for each field. Answers whether a packet left, whose field words
    /// are then in `leaving`. Takes no memory.
    pub fn cycle<H: HashUnits>(
        &mut self,
        hash: &H,
        entering: Option<&[u32]>,
        leaving: &mut Packet,
    ) -> bool
        requires entering { HasWords (length self.old.config.fields) (option_map (λ fields. fields.now) entering) }
        requires leaving { length leaving.old ≡ length self.old.config.fields }
        ensures config { self.new.config ≡ self.old.config }
        ensures row { self.new.row ≡ cycle_with (H.meaning hash.now) self.old.config self.old.row (option_map (λ fields. fields.now) entering.entry) }
        ensures left { LeavesAs (leaves_with (H.meaning hash.now) self.old.config self.old.row (option_map (λ fields. fields.now) entering.entry)) result leaving.old leaving.new }
        ensures size { length leaving.new ≡ length leaving.old }
        ensures stands { (entries : List Entry) → Stands (H.meaning hash.now) entries self.old → Stands (H.meaning hash.now) (entries ++ option_map (λ fields. fields.now) entering.entry ∷ []) self.new }
        ensures moment { (entries : List Entry) → Stands (H.meaning hash.now) entries self.old → IsMoment (H.meaning hash.now) self.new.config (entries ++ option_map (λ fields. fields.now) entering.entry ∷ []) self.new.row }
        ensures touches { self.new.touches ≡ cycle_touches self.old.config self.old.row.registers self.old.row.state }
        ensures noted { (entries : List Entry) → Stands (H.meaning hash.now) entries self.old → self.new.touches ≡ cycle_touches self.old.config (pipe (H.meaning hash.now) self.old.config entries).registers (pipe (H.meaning hash.now) self.old.config entries).state }
        ensures orders { (order : List Firing) → IsOrder order (firings_from 0 self.old.config.stages self.old.row.registers) → IsFired (H.meaning hash.now) self.old.config self.old.row (option_map (λ fields. fields.now) entering.entry) order }
    {
        turn(
            &self.config,
            hash,
            entering,
            self.busy.as_slice(),
            &mut self.position,
            &mut self.in_flight,
            &mut self.filled,
            &mut self.words,
            &mut self.arrays,
            &mut self.touches,
            leaving,
        )
    }

    /// The containers of the packet in register `k`, which is below `DEPTH`; `None` exactly where it is empty.
    pub fn register(&self, k: usize) -> Option<&[u32]>
        requires { k < DEPTH }
        ensures words { option_map (λ words. words.now) result ≡ slice_index_or self.now.row.registers k None }
        ensures width { IfSome result (λ words. length words.now ≡ self.now.config.containers) }
    {
        let width = self.config.containers() as usize;
        let at = place(self.position, k, self.config.stages());
        if self.filled[at] {
            Some(&self.words[at * width..at * width + width])
        } else {
            None
        }
    }

    /// A word of an array.
    pub fn word(&self, array: usize, index: u32) -> u32
        requires array { array < length self.now.row.state }
        requires index { index < length (array_of self.now.row.state array) }
        ensures { result ≡ slice_index (array_of self.now.row.state array) index }
    {
        self.arrays[array].words()[index as usize]
    }

    /// The state words that the last cycle touched, in order of stage, atom and slot: one word for each slot of each atom
    /// of the stages that had a packet, no array twice, each of the configuration. None before the first cycle.
    pub fn touches(&self) -> &[Touch]
        ensures touches { result.now ≡ self.now.touches }
        ensures once { AreOnce result.now }
        ensures named { All (λ touch. touch.array < length self.now.config.arrays) result.now }
    {
        self.touches.as_slice()
    }
}
