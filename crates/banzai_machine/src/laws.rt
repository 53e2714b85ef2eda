//! Laws of configurations, for every hash.
ghost use Rattle.std.specs.Prelude.{◌≡◌, ℕ, Bool, false, true, List, length};
ghost use Rattle.pipeline_law.specs.Order.{IsOrder};
ghost use Rattle.pipeline_law.specs.Pipeline.{Row};
ghost use Rattle.banzai_config.specs.Action.{Arrays, Entry};
ghost use Rattle.atom_traits.specs.Form.{TreesForm};
ghost use Rattle.banzai_config.specs.Checked.{shape_with};
ghost use Rattle.banzai_config.specs.Legal.{LegalFor, Shape};
ghost use Rattle.banzai_config.specs.Named.{stage_arrays};
ghost use Rattle.banzai_config.specs.Parts.{PartsForm, StageForm, atoms_of};
ghost use Rattle.banzai_machine.specs.Alone.{IsMoment, IsPipeAlone};
ghost use Rattle.banzai_machine.specs.InPlace.{InPlace, IsStageInPlace, NoneReads, NoneReadsIn};
ghost use Rattle.banzai_machine.specs.Own.{AreDistinct, OwnArrays, OwnContainers};
ghost use Rattle.banzai_machine.specs.Fired.{Firing, IsFired, firings_from};
ghost use Rattle.banzai_machine.specs.Pipe.{pipe};
ghost use Rattle.banzai_machine.specs.Touches.{AreOnce, cycle_touches};

use dom_words::HashUnits;

/// In a configuration that is legal for any target each array stands in one slot, and each container that a stage writes
/// has one writer there.
pub fn legal_parts_have_one_owner()
    ensures arrays { (s : Shape) (p : PartsForm) → LegalFor s p → OwnArrays p.stages }
    ensures containers { (s : Shape) (p : PartsForm) → LegalFor s p → OwnContainers p.stages }
{}

/// Over any entries and a drain, packets that are in flight together come out as they do one after another, each as many
/// cycles after it entered as there are stages, and they leave the same words in the arrays.
pub fn pipe_is_alone<H: HashUnits>(hash: &H)
    ensures { (p : PartsForm) (entries : List Entry) → OwnArrays p.stages → IsPipeAlone (H.meaning hash.now) p entries }
{}

/// At each moment each register holds what its packet is with nobody else in the machine, and the arrays of each stage
/// are those that the packets that have passed it leave.
pub fn each_moment_is_alone<H: HashUnits>(hash: &H)
    ensures { (p : PartsForm) (entries : List Entry) → OwnArrays p.stages → IsMoment (H.meaning hash.now) p entries (pipe (H.meaning hash.now) p entries) }
{}

/// One cycle is the same in whatever order its atoms fire, stages mixed at will: each of them reads the register that was
/// before its stage and the words that its own arrays hold by then. Then the copies of the registers move on.
pub fn any_order_is_the_cycle<H: HashUnits>(hash: &H)
    ensures { (p : PartsForm) (row : Row Arrays Entry) (entry : Entry) (order : List Firing) → OwnArrays p.stages → OwnContainers p.stages
        → length row.registers ≡ length p.stages → IsOrder order (firings_from 0 p.stages row.registers)
        → IsFired (H.meaning hash.now) p row entry order }
{}

/// A cycle touches no array twice.
pub fn no_array_is_touched_twice()
    ensures { (p : PartsForm) (registers : List Entry) (arrays : Arrays) → OwnArrays p.stages → AreOnce (cycle_touches p registers arrays) }
{}

/// In a configuration that is legal for any target no atom of a stage reads what an earlier one writes.
pub fn legal_atoms_read_what_came_in()
    ensures { (s : Shape) (p : PartsForm) → LegalFor s p → NoneReadsIn p.stages }
{}

/// A configuration that is legal for a target without multipliers is legal for the same target with multipliers.
pub fn multipliers_do_no_harm()
    ensures { (fits : TreesForm → Bool) (bits depth stateless stateful : ℕ) (p : PartsForm) → LegalFor (shape_with fits bits depth stateless stateful false) p → LegalFor (shape_with fits bits depth stateless stateful true) p }
{}

/// Where no atom of a stage reads what an earlier one writes, atoms that write their exports into the packet that they
/// read, one after another, do what all of them do on the same incoming containers, and touch the same words.
pub fn a_stage_may_act_in_place<H: HashUnits>(hash: &H)
    ensures { (number : ℕ) (stage : StageForm) (before : InPlace) → NoneReads (atoms_of stage) → AreDistinct (stage_arrays stage)
        → IsStageInPlace (H.meaning hash.now) number stage before }
{}
