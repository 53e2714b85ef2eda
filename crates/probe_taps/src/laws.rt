//! Laws of taps, for every hash.
ghost use Rattle.std.specs.Prelude.{◌≡◌, List, [], length, map};
ghost use Rattle.banzai_config.specs.Action.{Entry};
ghost use Rattle.banzai_config.specs.Parts.{PartsForm};
ghost use Rattle.banzai_machine.specs.State.{Stands};
ghost use Rattle.probe_taps.specs.Attached.{AttachedForm, TappedForm};
ghost use Rattle.probe_taps.specs.Runs.{IsTapped, after_run, count_of, cycle_by_cycle};

use dom_words::HashUnits;

/// While entries come, one a cycle, the number of each tap becomes its rule folded over exactly the packets that stand
/// before its stage, each with its cycle; from the beginning where no entries came earlier.
pub fn numbers_are_folds<H: HashUnits>(hash: &H)
    ensures { (p : PartsForm) (earlier later : List Entry) (taps : List AttachedForm)
        → cycle_by_cycle (H.meaning hash.now) p earlier later taps ≡ map (after_run (H.meaning hash.now) p earlier later) taps }
{}

/// A machine with taps is at the beginning of a run of those taps, whatever entries came earlier.
pub fn runs_begin_anywhere<H: HashUnits>(hash: &H)
    ensures { (earlier : List Entry) (t : TappedForm) → Stands (H.meaning hash.now) earlier t.machine → t.cycle ≡ count_of earlier
        → IsTapped (H.meaning hash.now) earlier [] t.taps t }
{}
