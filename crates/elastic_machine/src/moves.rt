ghost use Rattle.std.specs.Prelude.{◌≡◌, ◌+◌, ◌-◌, ◌*◌, ◌<◌, ◌≤◌, true, Some, ◌++◌, length, map, take, drop, replicate, slice_index};
ghost use Rattle.std.specs.List.{flat_map, AllByRecursion};
ghost use Rattle.atom_traits.specs.Form.{port_word};
ghost use Rattle.atom_traits.specs.Tests.{port_below};
ghost use Rattle.banzai_machine.specs.Kept.{stage_slots};
ghost use Rattle.banzai_machine.specs.Runnable.{IsRunnable, array_sizes, stage_at};
ghost use Rattle.elastic_machine.specs.Lanes.{AreHeld, put_last, queues_in};
ghost use Rattle.elastic_machine.specs.Moves.{Leaves, Passes};

use crate::mark::{Mark, end, grow, place, shrink};
use atom_traits::{AtomTemplate, Ports};
use banzai_config::Config;
use banzai_machine::{Touches, enter, run_at, show};
use dom_words::{HashUnits, Packet};

// Fills a place from the fields of a packet, with 0 beyond them: all other places stay.
fn fill(fields: &[u32], at: usize, width: usize, words: &mut [u32])
    requires fields { length fields.now ≤ width }
    requires fits { at * width + width ≤ length words.old }
    ensures before { take (at * width) words.new ≡ take (at * width) words.old }
    ensures after { drop (at * width + width) words.new ≡ drop (at * width + width) words.old }
    ensures out { take width (drop (at * width) words.new) ≡ fields.now ++ replicate (width - length fields.now) 0 }
    ensures size { length words.new ≡ length words.old }
{
    let start = at * width;
    enter(fields, &mut words[start..start + width]);
}

// Copies a place into another one: all other places stay.
fn copy(from: usize, to: usize, width: usize, words: &mut [u32])
    requires from { from * width + width ≤ length words.old }
    requires to { to * width + width ≤ length words.old }
    ensures before { take (to * width) words.new ≡ take (to * width) words.old }
    ensures after { drop (to * width + width) words.new ≡ drop (to * width + width) words.old }
    ensures out { take width (drop (to * width) words.new) ≡ take width (drop (from * width) words.old) }
    ensures size { length words.new ≡ length words.old }
{
    let start = from * width;
    words.copy_within(start..start + width, to * width);
}

// Puts a packet at the end of the first queue.
pub(crate) fn put(fields: &[u32], cap: usize, width: usize, marks: &mut [Mark], words: &mut [u32])
    requires held { AreHeld width cap marks.old words.old }
    requires some { 0 < length marks.old }
    requires room { slice_index (map (λ m. m.count) marks.old) 0 < cap }
    requires fields { length fields.now ≤ width }
    ensures held { AreHeld width cap marks.new words.new }
    ensures queues { queues_in width cap marks.new words.new ≡ put_last 0 (Some (fields.now ++ replicate (width - length fields.now) 0)) (queues_in width cap marks.old words.old) }
    ensures size { length marks.new ≡ length marks.old }
{
    let to = place(0, end(marks[0], cap), cap);
    fill(fields, to, width, words);
    grow(&mut marks[0], cap);
}

// Takes the head of queue `k` through the stage behind it to the end of the next queue.
pub(crate) fn pass<T: AtomTemplate, H: HashUnits>(
    hash: &H,
    config: &Config<T>,
    k: usize,
    cap: usize,
    width: usize,
    marks: &mut [Mark],
    words: &mut [u32],
    arrays: &mut [Packet],
    touches: &mut Touches,
)
    requires runs { IsRunnable config.now }
    requires width { width ≡ config.now.containers }
    requires stage { k < length config.now.stages }
    requires queues { length marks.old ≡ length config.now.stages + 1 }
    requires held { AreHeld width cap marks.old words.old }
    requires some { 0 < slice_index (map (λ m. m.count) marks.old) k }
    requires room { slice_index (map (λ m. m.count) marks.old) (k + 1) < cap }
    requires sizes { map length arrays.old ≡ array_sizes config.now }
    requires slots { length (flat_map stage_slots config.now.stages) ≤ touches.old.room }
    ensures held { AreHeld width cap marks.new words.new }
    ensures passes { Passes (H.meaning hash.now) (stage_at config.now.stages k) k (queues_in width cap marks.old words.old) (queues_in width cap marks.new words.new) arrays.old arrays.new }
    ensures size { length marks.new ≡ length marks.old }
    ensures sizes { map length arrays.new ≡ map length arrays.old }
    ensures slots { touches.new.room ≡ touches.old.room }
{
    let from = place(k, marks[k].start, cap);
    let to = place(k + 1, end(marks[k + 1], cap), cap);
    touches.clear();
    copy(from, to, width, words);
    run_at::<T, H>(hash, config, k, to, width, words, arrays, touches);
    grow(&mut marks[k + 1], cap);
    shrink(&mut marks[k], cap);
}

// Writes the field words of the packet in a place.
fn show_at(outputs: &Ports, at: usize, width: usize, words: &[u32], leaving: &mut Packet)
    requires outputs { AllByRecursion (λ port. port_below width port ≡ true) outputs.now }
    requires fits { at * width + width ≤ length words.now }
    requires size { length leaving.old ≡ length outputs.now }
    ensures { leaving.new ≡ map (λ port. port_word port (take width (drop (at * width) words.now))) outputs.now }
{
    let start = at * width;
    show(outputs, &words[start..start + width], leaving.words_mut());
}

// Shows the head of queue `k` through the outputs and drops it.
pub(crate) fn take_out(
    outputs: &Ports,
    k: usize,
    cap: usize,
    width: usize,
    marks: &mut [Mark],
    words: &[u32],
    leaving: &mut Packet,
)
    requires held { AreHeld width cap marks.old words.now }
    requires k { k < length marks.old }
    requires some { 0 < slice_index (map (λ m. m.count) marks.old) k }
    requires outputs { AllByRecursion (λ port. port_below width port ≡ true) outputs.now }
    requires size { length leaving.old ≡ length outputs.now }
    ensures held { AreHeld width cap marks.new words.now }
    ensures leaves { Leaves outputs.now k (queues_in width cap marks.old words.now) (queues_in width cap marks.new words.now) leaving.new }
    ensures size { length marks.new ≡ length marks.old }
{
    let at = place(k, marks[k].start, cap);
    show_at(outputs, at, width, words, leaving);
    shrink(&mut marks[k], cap);
}
