//! Laws of a queue that serves by rank, alone and behind a machine.
ghost use Rattle.std.specs.Prelude.{◌≡◌, ℕ, ◌+◌, ◌-◌, Bool, List, [], ◌++◌, length, map, replicate, None};
ghost use Rattle.std.specs.List.Sorted.{IsPermutation};
ghost use Rattle.dom_words.specs.State.{started};
ghost use Rattle.pipeline_law.specs.Pipeline.{Row};
ghost use Rattle.banzai_config.specs.Action.{Arrays, Entry};
ghost use Rattle.banzai_config.specs.Parts.{PartsForm};
ghost use Rattle.banzai_machine.specs.Alone.{entries_alone, packets_of};
ghost use Rattle.banzai_machine.specs.Own.{OwnArrays};
ghost use Rattle.banzai_machine.specs.Pipe.{cycle_with, drain, emitted, leaves_with, pipe};
ghost use Rattle.banzai_machine.specs.State.{MachineForm, Stands};
ghost use Rattle.pifo_rank.specs.Queue.{Held, rest};
ghost use Rattle.pifo_rank.specs.Ranked.{turns_from, with_empty_queue};
ghost use Rattle.pifo_rank.specs.Run.{ranked, ranked_from};
ghost use Rattle.pifo_rank.specs.Serves.{AreEmpty, ServesFirstOfLeast, packets_in};

use dom_words::HashUnits;

/// Of the packets that are held the first of the least rank is served, and the others stay.
pub fn the_first_of_the_least_rank_is_served()
    ensures serves { (entries : List Held) → ServesFirstOfLeast entries }
    ensures count { (entries : List Held) → length (rest entries) ≡ length entries - 1 }
{}

/// Over any cycles, one for each arrival, no packet is lost or made: those that are dropped, served and held after them are
/// those that were held before them and those that arrived.
pub fn no_packet_is_lost_or_made()
    ensures { (room rank : ℕ) (held : List Held) (arrivals : List Entry) (serving : List Bool) → length serving ≡ length arrivals
        → IsPermutation (map (λ e. e.words) held ++ packets_of arrivals) (packets_in held (ranked_from room rank held arrivals serving)) }
{}

/// A machine at its beginning with an empty queue behind it, clocked over any entries, serves and drops what the queue does
/// over the packets that leave the pipeline, each in the cycle in which it leaves.
pub fn cycles_are_the_ranked_queue<H: HashUnits>(hash: &H)
    ensures { (m : MachineForm) (rank room : ℕ) (entries : List Entry) (serving : List Bool) → Stands (H.meaning hash.now) [] m
        → turns_from (H.meaning hash.now) (with_empty_queue m rank room) entries serving ≡ ranked room rank (emitted (H.meaning hash.now) m.config entries) serving }
{}

/// And over any entries and a drain these packets are what each entry comes out as alone, one after another, as many cycles
/// after it entered as there are stages.
pub fn cycles_rank_what_is_alone<H: HashUnits>(hash: &H)
    ensures { (m : MachineForm) (rank room : ℕ) (entries : List Entry) (serving : List Bool) → Stands (H.meaning hash.now) [] m → OwnArrays m.config.stages
        → turns_from (H.meaning hash.now) (with_empty_queue m rank room) (entries ++ drain m.config) serving ≡ ranked room rank (drain m.config ++ entries_alone (H.meaning hash.now) m.config (started m.config.arrays) entries) serving }
{}

/// Once a drain has gone by, nothing leaves the pipeline in the idle cycles that follow.
pub fn nothing_leaves_after_the_drain<H: HashUnits>(hash: &H)
    ensures { (p : PartsForm) (entries : List Entry) (more : ℕ) → OwnArrays p.stages
        → leaves_with (H.meaning hash.now) p (pipe (H.meaning hash.now) p (entries ++ (drain p ++ replicate more None))) None ≡ None }
{}

/// Each idle cycle leaves one register more without a packet, from the first one on; where none holds one, nothing leaves.
pub fn idle_cycles_empty_the_pipeline<H: HashUnits>(hash: &H)
    ensures step { (p : PartsForm) (row : Row Arrays Entry) (k : ℕ) → AreEmpty k row.registers → AreEmpty (k + 1) (cycle_with (H.meaning hash.now) p row None).registers }
    ensures empty { (p : PartsForm) (row : Row Arrays Entry) → AreEmpty (length p.stages) row.registers → leaves_with (H.meaning hash.now) p row None ≡ None }
{}
