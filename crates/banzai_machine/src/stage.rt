ghost use Rattle.std.specs.Prelude.{◌≡◌, ◌+◌, ◌<◌, ◌≤◌, Some, ◌++◌, length, map};
ghost use Rattle.std.specs.List.{flat_map, AllByRecursion};
ghost use Rattle.pipeline_law.specs.Order.{runs};
ghost use Rattle.banzai_config.specs.Action.{put, stage_exports, stage_writes, store};
ghost use Rattle.banzai_config.specs.Parts.{fit_form};
ghost use Rattle.banzai_machine.specs.InPlace.{InPlace, fit_in_place, op_in_place};
ghost use Rattle.banzai_machine.specs.Kept.{stage_slots};
ghost use Rattle.banzai_machine.specs.Runnable.{FitWithin, IsRunnable, OpWithin, array_sizes, stage_at};
ghost use Rattle.banzai_machine.specs.Touches.{touches_before};

use crate::fire::fire;
use crate::touches::Touches;
use atom_traits::{AtomTemplate, apply_stateless};
use banzai_config::{Config, FitAtoms, OpAtoms};
use dom_words::{HashUnits, Packet};

// The atoms without state of a stage.
fn run_stateless<H: HashUnits>(hash: &H, atoms: &OpAtoms, words: &mut [u32])
    requires within { AllByRecursion (λ atom. OpWithin (length words.old) atom) atoms.now }
    ensures words { words.new ≡ runs (op_in_place (H.meaning hash.now)) atoms.now words.old }
    ensures size { length words.new ≡ length words.old }
{
    for i in 0..atoms.len() {
        let atom = atoms.get(i);
        let word = apply_stateless::<H>(&atom.op, words, hash);
        words[atom.to as usize] = word;
    }
}

// The atoms with state of a stage.
fn run_stateful<T: AtomTemplate>(
    number: u32,
    atoms: &FitAtoms<T>,
    words: &mut [u32],
    arrays: &mut [Packet],
    touches: &mut Touches,
)
    requires within { AllByRecursion (λ atom. FitWithin (map length arrays.old) (length words.old) (fit_form T.trees_of atom)) atoms.now }
    requires room { length touches.old.list + length (flat_map (λ atom. atom.slots) atoms.now) ≤ touches.old.room }
    ensures ran { ◌≡◌ {A = InPlace} (record { words = words.new; arrays = arrays.new; touches = touches.new.list }) (runs (fit_in_place number) (map (fit_form T.trees_of) atoms.now) (record { words = words.old; arrays = arrays.old; touches = touches.old.list })) }
    ensures room { touches.new.room ≡ touches.old.room }
    ensures sizes { map length arrays.new ≡ map length arrays.old }
    ensures size { length words.new ≡ length words.old }
{
    for i in 0..atoms.len() {
        fire::<T>(number, atoms.get(i), words, arrays, touches);
    }
}

// All atoms of a stage, one after another in the packet's place: as if on the same incoming containers. Stages count from
// 0 here.
pub(crate) fn run_stage<T: AtomTemplate, H: HashUnits>(
    hash: &H,
    config: &Config<T>,
    k: usize,
    words: &mut [u32],
    arrays: &mut [Packet],
    touches: &mut Touches,
)
    requires runs { IsRunnable config.now }
    requires stage { k < length config.now.stages }
    requires wide { length words.old ≡ config.now.containers }
    requires sizes { map length arrays.old ≡ array_sizes config.now }
    requires room { length touches.old.list + length (stage_slots (stage_at config.now.stages k)) ≤ touches.old.room }
    ensures arrays { arrays.new ≡ store (stage_writes (stage_at config.now.stages k) arrays.old words.old) arrays.old }
    ensures words { words.new ≡ put (stage_exports (H.meaning hash.now) (stage_at config.now.stages k) arrays.old words.old) words.old }
    ensures touches { touches.new.list ≡ touches.old.list ++ touches_before (k + 1) (stage_at config.now.stages k) arrays.old (Some words.old) }
    ensures room { touches.new.room ≡ touches.old.room }
    ensures sizes { map length arrays.new ≡ map length arrays.old }
    ensures size { length words.new ≡ length words.old }
{
    let number = k as u32 + 1;
    run_stateless(hash, config.stateless(number), words);
    run_stateful::<T>(number, config.stateful(number), words, arrays, touches);
}
