ghost use Rattle.std.specs.Prelude.{◌≡◌, ◌+◌, ◌-◌, ◌*◌, ◌<◌, ◌≤◌, ◌^◌, true, Some, List, ℕ, [], ◌∷◌, ◌++◌, length, map, slice_index, IfOk, MatchResult, OnErr, OnOk};
ghost use Rattle.std.specs.List.{AllByRecursion};
ghost use Rattle.dom_words.specs.State.{Hash, array_of};
ghost use Rattle.pipeline_law.specs.Queues.{Event, Enter, Fire, Leave, last_head};
ghost use Rattle.banzai_config.specs.Action.{Arrays};
ghost use Rattle.banzai_config.specs.Checked.{shape_with};
ghost use Rattle.banzai_config.specs.Legal.{LegalFor};
ghost use Rattle.banzai_machine.specs.Own.{OwnArrays};
ghost use Rattle.banzai_machine.specs.Pipe.{shown};
ghost use Rattle.banzai_machine.specs.Runnable.{IsRunnable, array_sizes};
ghost use Rattle.elastic_machine.specs.Elastic.{IsNew, Stands};
ghost use Rattle.elastic_machine.specs.Kept.{IsKept, Leads};
ghost use Rattle.elastic_machine.specs.Lanes.{queues_in};
ghost use Rattle.elastic_machine.specs.Queued.{left_by, placed};
ghost use Rattle.elastic_machine.specs.Ready.{Answers, enter_waits, fire_waits, leave_waits};

use crate::make::{marks, zeros};
use crate::mark::Mark;
use crate::moves::{pass, put, take_out};
use crate::ready;
use crate::ready::NotReady;
use atom_traits::AtomTemplate;
use banzai_config::Config;
use banzai_machine::{Touches, arrays};
use dom_words::{HashUnits, Memory, Packet};
use std::alloc::Global;
use std::marker::Model;

// A packet comes into the first queue, on the fields of an Elastic.
fn enter_on<T: AtomTemplate>(
    config: &Config<T>,
    packet: &[u32],
    cap: usize,
    marks: &mut Vec<Mark>,
    words: &mut Vec<u32>,
    arrays: &Vec<Packet>,
    touches: &Touches,
) -> Result<(), NotReady>
    requires kept { IsKept cap config.now marks.old.items words.old.items arrays.now.items touches.now }
    requires fields { length packet.now ≤ config.now.containers }
    ensures kept { IsKept cap config.now marks.new.items words.new.items arrays.now.items touches.now }
    ensures answer { Answers (enter_waits cap (map length (queues_in config.now.containers cap marks.old.items words.old.items))) result }
    ensures same { OnErr result ((marks.new.items ≡ marks.old.items) × (words.new.items ≡ words.old.items)) }
    ensures leads { (hash : Hash) (a : Arrays) → Leads hash cap config.now (placed config.now (Enter packet.now)) (queues_in config.now.containers cap marks.old.items words.old.items) a (queues_in config.now.containers cap marks.new.items words.new.items) a }
{
    match ready::enter_waits(marks.as_slice(), cap) {
        Some(full) => Err(full),
        None => {
            let width = config.containers() as usize;
            put(
                packet,
                cap,
                width,
                marks.as_mut_slice(),
                words.as_mut_slice(),
            );
            Ok(())
        }
    }
}

// The head of queue `k` goes through the stage behind it, on the fields of an Elastic.
fn fire_on<T: AtomTemplate, H: HashUnits>(
    config: &Config<T>,
    hash: &H,
    k: u32,
    cap: usize,
    marks: &mut Vec<Mark>,
    words: &mut Vec<u32>,
    arrays: &mut Vec<Packet>,
    touches: &mut Touches,
) -> Result<(), NotReady>
    requires runs { IsRunnable config.now }
    requires kept { IsKept cap config.now marks.old.items words.old.items arrays.old.items touches.old }
    requires k { k < length config.now.stages }
    ensures kept { IsKept cap config.now marks.new.items words.new.items arrays.new.items touches.new }
    ensures answer { Answers (fire_waits cap k (map length (queues_in config.now.containers cap marks.old.items words.old.items))) result }
    ensures same { OnErr result ((marks.new.items ≡ marks.old.items) × (words.new.items ≡ words.old.items) × (arrays.new.items ≡ arrays.old.items)) }
    ensures leads { Leads (H.meaning hash.now) cap config.now (Fire k) (queues_in config.now.containers cap marks.old.items words.old.items) arrays.old.items (queues_in config.now.containers cap marks.new.items words.new.items) arrays.new.items }
{
    match ready::fire_waits(marks.as_slice(), k, cap) {
        Some(reason) => Err(reason),
        None => {
            let width = config.containers() as usize;
            pass::<T, H>(
                hash,
                config,
                k as usize,
                cap,
                width,
                marks.as_mut_slice(),
                words.as_mut_slice(),
                arrays.as_mut_slice(),
                touches,
            );
            Ok(())
        }
    }
}

// The head of the last queue leaves, on the fields of an Elastic.
fn leave_on<T: AtomTemplate>(
    config: &Config<T>,
    cap: usize,
    marks: &mut Vec<Mark>,
    words: &Vec<u32>,
    arrays: &Vec<Packet>,
    touches: &Touches,
    leaving: &mut Packet,
) -> Result<(), NotReady>
    requires runs { IsRunnable config.now }
    requires kept { IsKept cap config.now marks.old.items words.now.items arrays.now.items touches.now }
    requires shown { length leaving.old ≡ length config.now.outputs }
    ensures kept { IsKept cap config.now marks.new.items words.now.items arrays.now.items touches.now }
    ensures answer { Answers (leave_waits (length config.now.stages) (map length (queues_in config.now.containers cap marks.old.items words.now.items))) result }
    ensures same { OnErr result ((marks.new.items ≡ marks.old.items) × (leaving.new ≡ leaving.old)) }
    ensures shows { MatchResult result (λ _. map (shown config.now) (last_head (queues_in config.now.containers cap marks.old.items words.now.items)) ≡ Some leaving.new ∷ []) (λ _. last_head (queues_in config.now.containers cap marks.old.items words.now.items) ≡ []) }
    ensures leads { (hash : Hash) (a : Arrays) → Leads hash cap config.now Leave (queues_in config.now.containers cap marks.old.items words.now.items) a (queues_in config.now.containers cap marks.new.items words.now.items) a }
    ensures size { length leaving.new ≡ length leaving.old }
{
    let last = config.stages() as u32;
    match ready::leave_waits(marks.as_slice(), last) {
        Some(empty) => Err(empty),
        None => {
            let width = config.containers() as usize;
            take_out(
                config.outputs(),
                last as usize,
                cap,
                width,
                marks.as_mut_slice(),
                words.as_slice(),
                leaving,
            );
            Ok(())
        }
    }
}

/// The machine of a configuration with `DEPTH` stages of at most `SL` atoms without and `SF` atoms with state, and with
/// queues of at most `CAP` packets in place of registers: queue k - 1 stands before stage k, and queue `DEPTH` behind the
/// last. A call is an event; one that is not ready changes nothing.
///
/// All queues lie in one list of words (docs/MACHINE.md). No call but `new` takes memory.
#[derive(Drop)]
pub struct Elastic<
    T: AtomTemplate,
    const DEPTH: usize,
    const SL: usize,
    const SF: usize,
    const CAP: usize,
> {
    config: Config<T>,
    marks: Vec<Mark>,
    words: Vec<u32>,
    arrays: Vec<Packet>,
    touches: Touches,
}

impl<T: AtomTemplate, const DEPTH: usize, const SL: usize, const SF: usize, const CAP: usize> Model
    for Elastic<T, DEPTH, SL, SF, CAP> {
    ghost use Rattle.std.specs.Prelude.{◌≡◌, length};
    ghost use Rattle.banzai_machine.specs.Runnable.{IsRunnable};
    ghost use Rattle.elastic_machine.specs.Elastic.{ElasticForm};
    ghost use Rattle.elastic_machine.specs.ElasticCode.{elastic_code};
    ghost use Rattle.elastic_machine.specs.Kept.{IsKept, elastic_form};

    ghost Value = { ElasticForm };

    ghost coded = { elastic_code };

    ghost view = { λ m. elastic_form CAP m.config m.marks.items m.words.items m.arrays.items };

    ghost invariant = { λ m. (length m.config.stages ≡ DEPTH) × IsRunnable m.config × IsKept CAP m.config m.marks.items m.words.items m.arrays.items m.touches };
}

impl<
    T: AtomTemplate,
    const DEPTH: usize,
    const SL: usize,
    const SF: usize,
    const CAP: usize,
> Elastic<T, DEPTH, SL, SF, CAP> {
    /// A machine at its beginning. It takes all memory that the machine will ever need.
    pub fn new(alloc: Global, config: Config<T>) -> Result<Elastic<T, DEPTH, SL, SF, CAP>, Memory>
        requires some { 1 ≤ DEPTH }
        requires depth { DEPTH ≤ 65535 }
        requires legal { LegalFor (shape_with T.fits T.CONST_BITS DEPTH SL SF true) config }
        requires cap { 1 ≤ CAP }
        requires size { (DEPTH + 1) * CAP * config.containers < 2 ^ 31 }
        ensures { IfOk result (λ m. IsNew CAP config m) }
    {
        Elastic::<T, DEPTH, SL, SF, CAP>::of(alloc, config)
    }

    // The machine of a configuration that can be run.
    fn of(alloc: Global, config: Config<T>) -> Result<Elastic<T, DEPTH, SL, SF, CAP>, Memory>
        requires depth { length config.stages ≡ DEPTH }
        requires runs { IsRunnable config }
        requires cap { 1 ≤ CAP }
        requires places { (DEPTH + 1) * CAP < 2 ^ 31 }
        ensures { IfOk result (λ m. IsNew CAP config m) }
    {
        let width = config.containers() as usize;
        let marks = marks(alloc, DEPTH + 1)?;
        let words = zeros(alloc, (DEPTH + 1) * CAP * width)?;
        let declared = config.arrays();
        let cells = arrays(alloc, declared)?;
        let touches = Touches::new(alloc, declared.len())?;
        Ok(Elastic {
            config,
            marks,
            words,
            arrays: cells,
            touches,
        })
    }

    /// The configuration, in which each array stands in one slot. The machine has one queue more than stages, none of them
    /// with more than `CAP` packets, and a word for each element of its arrays.
    pub fn config(&self) -> &Config<T>
        ensures same { result.now ≡ self.now.config }
        ensures depth { length self.now.config.stages ≡ DEPTH }
        ensures owns { OwnArrays self.now.config.stages }
        ensures queues { length self.now.queues ≡ DEPTH + 1 }
        ensures held { AllByRecursion (λ queue. length queue ≤ CAP) self.now.queues }
        ensures sizes { map length self.now.state ≡ array_sizes self.now.config }
    {
        &self.config
    }

    /// A packet, a word for each field, comes to the end of queue 0. `Full(0)` where that holds `CAP` packets.
    pub fn enter(&mut self, packet: &[u32]) -> Result<(), NotReady>
        requires { length packet.now ≡ length self.old.config.fields }
        ensures config { self.new.config ≡ self.old.config }
        ensures answer { Answers (enter_waits CAP (map length self.old.queues)) result }
        ensures same { OnErr result (self.new ≡ self.old) }
        ensures stands { (hash : Hash) (events : List (Event (List ℕ))) → Stands hash CAP events self.old → Stands hash CAP (events ++ Enter packet.now ∷ []) self.new }
    {
        enter_on(
            &self.config,
            packet,
            CAP,
            &mut self.marks,
            &mut self.words,
            &self.arrays,
            &self.touches,
        )
    }

    /// The head of queue `stage` - 1 goes through this stage, counted from 1, to the end of queue `stage`.
    /// `Empty(stage - 1)` where there is none, else `Full(stage)` where that queue holds `CAP` packets.
    pub fn fire<H: HashUnits>(&mut self, hash: &H, stage: u32) -> Result<(), NotReady>
        requires first { 1 ≤ stage }
        requires last { stage ≤ DEPTH }
        ensures config { self.new.config ≡ self.old.config }
        ensures answer { Answers (fire_waits CAP (stage - 1) (map length self.old.queues)) result }
        ensures same { OnErr result (self.new ≡ self.old) }
        ensures stands { (events : List (Event (List ℕ))) → Stands (H.meaning hash.now) CAP events self.old → Stands (H.meaning hash.now) CAP (events ++ Fire (stage - 1) ∷ []) self.new }
    {
        fire_on(
            &self.config,
            hash,
            stage - 1,
            CAP,
            &mut self.marks,
            &mut self.words,
            &mut self.arrays,
            &mut self.touches,
        )
    }

    /// The head of queue `DEPTH` leaves: its field words, through the outputs, are then in `leaving`, which has a word for
    /// each field. `Empty(DEPTH)` where there is none.
    pub fn leave(&mut self, leaving: &mut Packet) -> Result<(), NotReady>
        requires { length leaving.old ≡ length self.old.config.fields }
        ensures config { self.new.config ≡ self.old.config }
        ensures answer { Answers (leave_waits DEPTH (map length self.old.queues)) result }
        ensures same { OnErr result ((self.new ≡ self.old) × (leaving.new ≡ leaving.old)) }
        ensures shows { MatchResult result (λ _. map (shown self.old.config) (last_head self.old.queues) ≡ Some leaving.new ∷ []) (λ _. last_head self.old.queues ≡ []) }
        ensures size { length leaving.new ≡ length leaving.old }
        ensures stands { (hash : Hash) (events : List (Event (List ℕ))) → Stands hash CAP events self.old → Stands hash CAP (events ++ Leave ∷ []) self.new }
        ensures left { (hash : Hash) (events : List (Event (List ℕ))) → Stands hash CAP events self.old
            → MatchResult result
            (λ _. left_by hash CAP self.old.config (events ++ Leave ∷ []) ≡ left_by hash CAP self.old.config events ++ leaving.new ∷ [])
            (λ _. left_by hash CAP self.old.config (events ++ Leave ∷ []) ≡ left_by hash CAP self.old.config events) }
    {
        leave_on(
            &self.config,
            CAP,
            &mut self.marks,
            &self.words,
            &self.arrays,
            &self.touches,
            leaving,
        )
    }

    /// The number of packets in a queue, counted from 0.
    pub fn held(&self, queue: u32) -> usize
        requires { queue ≤ DEPTH }
        ensures { result ≡ slice_index (map length self.now.queues) queue }
    {
        self.marks[queue as usize].count
    }

    /// A word of an array.
    pub fn word(&self, array: usize, index: u32) -> u32
        requires array { array < length self.now.state }
        requires index { index < length (array_of self.now.state array) }
        ensures { result ≡ slice_index (array_of self.now.state array) index }
    {
        self.arrays[array].words()[index as usize]
    }
}
