ghost use Rattle.std.specs.Prelude.{◌≡◌, ℕ, ◌+◌, ◌≤◌, ◌<◌, ◌-◌, ◌^◌, Bool, ◌&&◌, List, [], ◌∷◌, ◌++◌, Some, None, if◌then◌else◌, is_some, length, nat_le, nat_lt, IfOk};
ghost use Rattle.std.specs.Option.{option_map};
ghost use Rattle.dom_words.specs.State.{Hash};
ghost use Rattle.banzai_config.specs.Action.{Entry};
ghost use Rattle.banzai_machine.specs.Pipe.{emitted, leaves_with};
ghost use Rattle.banzai_machine.specs.State.{HasWords, LeavesAs, Stands};
ghost use Rattle.pifo_rank.specs.Queue.{Queue};
ghost use Rattle.pifo_rank.specs.Run.{dropped_in, joined, kept_in, ranked, served_in, taken_in};
ghost use Rattle.pifo_rank.specs.Ranked.{StandsRanked, after_cycle, turn_of, with_empty_queue};

use crate::pifo::Pifo;
use atom_traits::AtomTemplate;
use banzai_machine::Machine;
use dom_words::{HashUnits, Memory, Packet, signed};
use std::alloc::Global;
use std::marker::Model;
use std::mem;

/// Whether a cycle served a packet, and whether it dropped one.
#[derive(Clone, Copy, Debug, PartialEq, Eq)]
pub struct Outcome {
    pub served: bool,
    pub dropped: bool,
}

// Pushes the packet that left, if one did; where the queue is full, puts it into `dropped` and answers true.
fn take_in(
    queue: &mut Pifo,
    rank: usize,
    left: bool,
    words: &mut Packet,
    dropped: &mut Packet,
) -> bool
    requires rank { rank < queue.old.width }
    requires few { queue.old.pushes < 2 ^ 64 - 1 }
    requires words { length words.old ≡ queue.old.width }
    requires dropped { length dropped.old ≡ queue.old.width }
    ensures queue { queue.new ≡ record queue.old { entries = joined queue.old.room rank queue.old.entries (if left then Some words.old else None); pushes = queue.old.pushes + taken_in queue.old.room queue.old.entries (if left then Some words.old else None) } }
    ensures dropped { LeavesAs (dropped_in queue.old.room queue.old.entries (if left then Some words.old else None)) result dropped.old dropped.new }
    ensures words_size { length words.new ≡ length words.old }
    ensures dropped_size { length dropped.new ≡ length dropped.old }
{
    if !left {
        return false;
    }
    if queue.push(signed(words.words()[rank]), words.words()) {
        return false;
    }
    mem::swap(words, dropped);
    true
}

// Serves a packet into `served`, in a cycle that serves, if one is held.
fn serve_one(queue: &mut Pifo, serve: bool, served: &mut Packet) -> bool
    requires { length served.old ≡ queue.old.width }
    ensures some { result ≡ (serve && nat_lt 0 (length queue.old.entries)) }
    ensures queue { queue.new ≡ record queue.old { entries = kept_in queue.old.entries serve } }
    ensures served { LeavesAs (served_in queue.old.entries serve) result served.old served.new }
    ensures size { length served.new ≡ length served.old }
{
    if !serve {
        return false;
    }
    queue.pop(served).is_some()
}

/// A machine with a queue behind it that serves by a field of the packets.
#[derive(Drop)]
pub struct Ranked<T: AtomTemplate, const DEPTH: usize, const SL: usize, const SF: usize> {
    machine: Machine<T, DEPTH, SL, SF>,
    queue: Pifo,
    rank: usize,
    left: Packet,
}

impl<T: AtomTemplate, const DEPTH: usize, const SL: usize, const SF: usize> Model
    for Ranked<T, DEPTH, SL, SF> {
    ghost use Rattle.std.specs.Prelude.{◌≡◌, ◌<◌, length};
    ghost use Rattle.pifo_rank.specs.Ranked.{RankedForm};
    ghost use Rattle.pifo_rank.specs.RankedCode.{ranked_code};

    ghost Value = { RankedForm };

    ghost coded = { ranked_code };

    ghost view = { λ r. record { machine = r.machine; queue = r.queue; rank = r.rank } };

    ghost invariant = { λ r. (r.rank < r.queue.width) × (r.queue.width ≡ length r.machine.config.fields) × (length r.left ≡ r.queue.width) };
}

impl<T: AtomTemplate, const DEPTH: usize, const SL: usize, const SF: usize> Ranked<
    T,
    DEPTH,
    SL,
    SF,
> {
    /// The machine with an empty queue of `room` packets behind it, ranked by the field at position `rank`. It takes all
    /// memory that the queue will ever need; where there is too little, the machine is dropped.
    pub fn new(
        alloc: Global,
        machine: Machine<T, DEPTH, SL, SF>,
        rank: usize,
        room: usize,
    ) -> Result<Ranked<T, DEPTH, SL, SF>, Memory>
        requires { rank < length machine.config.fields }
        ensures new { IfOk result (λ r. r ≡ with_empty_queue machine rank room) }
        ensures stands { IfOk result (λ r. (hash : Hash) → Stands hash [] machine → StandsRanked hash [] [] r) }
    {
        let width = machine.config().fields().len();
        let queue = Pifo::new(alloc, room, width)?;
        let left = Packet::zeros(alloc, width)?;
        Ok(Ranked {
            machine,
            queue,
            rank,
            left,
        })
    }

    /// One cycle of the machine. A packet that leaves it joins the queue by its rank, or, where the queue is full, is put
    /// into `dropped`. Then, where `serve` holds, the queue is popped into `served`. `entering`, `served` and `dropped`
    /// have a word for each field. Answers which of the two packets were put; the other is unchanged. Takes no memory.
    pub fn cycle<H: HashUnits>(
        &mut self,
        hash: &H,
        entering: Option<&[u32]>,
        serve: bool,
        served: &mut Packet,
        dropped: &mut Packet,
    ) -> Outcome
        requires entering { HasWords (length self.old.machine.config.fields) (option_map (λ fields. fields.now) entering) }
        requires few { self.old.queue.pushes < 2 ^ 64 - 1 }
        requires served { length served.old ≡ length self.old.machine.config.fields }
        requires dropped { length dropped.old ≡ length self.old.machine.config.fields }
        ensures after { self.new ≡ after_cycle (H.meaning hash.now) self.old (option_map (λ fields. fields.now) entering.entry) serve }
        ensures dropped { LeavesAs (turn_of (H.meaning hash.now) self.old (option_map (λ fields. fields.now) entering.entry) serve).dropped result.dropped dropped.old dropped.new }
        ensures served { LeavesAs (turn_of (H.meaning hash.now) self.old (option_map (λ fields. fields.now) entering.entry) serve).served result.served served.old served.new }
        ensures drops { result.dropped ≡ (is_some (leaves_with (H.meaning hash.now) self.old.machine.config self.old.machine.row (option_map (λ fields. fields.now) entering.entry)) && nat_le self.old.queue.room (length self.old.queue.entries)) }
        ensures serves { result.served ≡ (serve && nat_lt 0 (length (joined self.old.queue.room self.old.rank self.old.queue.entries (leaves_with (H.meaning hash.now) self.old.machine.config self.old.machine.row (option_map (λ fields. fields.now) entering.entry))))) }
        ensures pushes { self.new.queue.pushes ≤ self.old.queue.pushes + 1 }
        ensures dropped_size { length dropped.new ≡ length dropped.old }
        ensures served_size { length served.new ≡ length served.old }
        ensures stands { (entries : List Entry) (serving : List Bool) → StandsRanked (H.meaning hash.now) entries serving self.old
            → StandsRanked (H.meaning hash.now) (entries ++ option_map (λ fields. fields.now) entering.entry ∷ []) (serving ++ serve ∷ []) self.new }
        ensures turn { (entries : List Entry) (serving : List Bool) → StandsRanked (H.meaning hash.now) entries serving self.old
            → ranked self.old.queue.room self.old.rank (emitted (H.meaning hash.now) self.old.machine.config (entries ++ option_map (λ fields. fields.now) entering.entry ∷ [])) (serving ++ serve ∷ [])
            ≡ ranked self.old.queue.room self.old.rank (emitted (H.meaning hash.now) self.old.machine.config entries) serving ++ turn_of (H.meaning hash.now) self.old (option_map (λ fields. fields.now) entering.entry) serve ∷ [] }
    {
        let left = self.machine.cycle(hash, entering, &mut self.left);
        let dropped = take_in(&mut self.queue, self.rank, left, &mut self.left, dropped);
        let served = serve_one(&mut self.queue, serve, served);
        Outcome { served, dropped }
    }

    /// The number of packets that the queue holds.
    pub fn held(&self) -> usize
        ensures count { result ≡ length self.now.queue.entries }
        ensures most { result ≤ self.now.queue.room }
    {
        self.queue.held()
    }

    /// The number of packets that joined the queue.
    pub fn pushes(&self) -> u64
        ensures { result ≡ self.now.queue.pushes }
    {
        self.queue.pushes()
    }

    /// The machine.
    pub fn machine(&self) -> &Machine<T, DEPTH, SL, SF>
        ensures { result.now ≡ self.now.machine }
    {
        &self.machine
    }
}
