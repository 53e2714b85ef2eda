//! Laws of configurations with queues, for every hash.
ghost use Rattle.std.specs.Prelude.{ℕ, List};
ghost use Rattle.pipeline_law.specs.Queues.{Event};
ghost use Rattle.banzai_config.specs.Parts.{PartsForm};
ghost use Rattle.banzai_machine.specs.Own.{OwnArrays};
ghost use Rattle.elastic_machine.specs.Queued.{IsAloneInQueues};

use dom_words::HashUnits;

/// With queues of any capacity, and packets that enter, stages that fire and packets that leave in any order: what has left
/// is the front of what the packets that came in come out as, one after another, and the arrays of each stage are those
/// after as many of them as it fired ready. Where all queues are empty, all have left, and every array is as they leave it.
pub fn queues_are_alone<H: HashUnits>(hash: &H)
    ensures { (p : PartsForm) (most : ℕ) (events : List (Event (List ℕ))) → OwnArrays p.stages → IsAloneInQueues (H.meaning hash.now) most p events }
{}
