ghost use Rattle.std.specs.Prelude.{◌≡◌, ◌+◌, ◌-◌, ◌*◌, ◌<◌, ◌≤◌, [], Some, None, ◌++◌, length, map, take, drop, replicate, slice_index_or, slice_set};
ghost use Rattle.std.specs.Option.{option_map};
ghost use Rattle.std.specs.List.{flat_map};
ghost use Rattle.pipeline_law.specs.Stage.{results};
ghost use Rattle.banzai_config.specs.Action.{acts};
ghost use Rattle.banzai_machine.specs.Busy.{busy_from};
ghost use Rattle.banzai_machine.specs.Kept.{FitsMost, one_if, put_in, set_flags, stage_slots};
ghost use Rattle.banzai_machine.specs.Pipe.{clocked, shown};
ghost use Rattle.banzai_machine.specs.Ring.{IsPlace, places, ring, shown_register};
ghost use Rattle.banzai_machine.specs.Runnable.{IsRunnable, array_sizes, stage_at};
ghost use Rattle.banzai_machine.specs.State.{LeavesAs};
ghost use Rattle.banzai_machine.specs.Touches.{touches_before, cycle_touches};

use crate::fire::show;
use crate::stage::run_stage;
use crate::touches::Touches;
use atom_traits::AtomTemplate;
use banzai_config::Config;
use dom_words::{HashUnits, Packet};

// The place that is so many steps behind another.
pub(crate) fn place(position: usize, k: usize, depth: usize) -> usize
    requires position { position < depth }
    requires k { k < depth }
    requires few { depth ≤ 65535 }
    ensures { IsPlace position k depth result }
{
    let at = position + k;
    if at < depth { at } else { at - depth }
}

/// A stage, counted from 0, on a place of a flat list of words: all other places stay.
pub fn run_at<T: AtomTemplate, H: HashUnits>(
    hash: &H,
    config: &Config<T>,
    k: usize,
    at: usize,
    width: usize,
    words: &mut [u32],
    arrays: &mut [Packet],
    touches: &mut Touches,
)
    requires runs { IsRunnable config.now }
    requires width { width ≡ config.now.containers }
    requires stage { k < length config.now.stages }
    requires fits { at * width + width ≤ length words.old }
    requires sizes { map length arrays.old ≡ array_sizes config.now }
    requires room { length touches.old.list + length (stage_slots (stage_at config.now.stages k)) ≤ touches.old.room }
    ensures before { take (at * width) words.new ≡ take (at * width) words.old }
    ensures after { drop (at * width + width) words.new ≡ drop (at * width + width) words.old }
    ensures out { Some (take width (drop (at * width) words.new)) ≡ (acts (H.meaning hash.now) (stage_at config.now.stages k) arrays.old (Some (take width (drop (at * width) words.old)))).1 }
    ensures arrays { arrays.new ≡ (acts (H.meaning hash.now) (stage_at config.now.stages k) arrays.old (Some (take width (drop (at * width) words.old)))).0 }
    ensures touches { touches.new.list ≡ touches.old.list ++ touches_before (k + 1) (stage_at config.now.stages k) arrays.old (Some (take width (drop (at * width) words.old))) }
    ensures room { touches.new.room ≡ touches.old.room }
    ensures sizes { map length arrays.new ≡ map length arrays.old }
    ensures size { length words.new ≡ length words.old }
{
    let start = at * width;
    run_stage::<T, H>(
        hash,
        config,
        k,
        &mut words[start..start + width],
        arrays,
        touches,
    );
}

// A stage on its place, if there is a packet.
fn advance_at<T: AtomTemplate, H: HashUnits>(
    hash: &H,
    config: &Config<T>,
    k: usize,
    full: bool,
    at: usize,
    width: usize,
    words: &mut [u32],
    arrays: &mut [Packet],
    touches: &mut Touches,
)
    requires runs { IsRunnable config.now }
    requires width { width ≡ config.now.containers }
    requires stage { k < length config.now.stages }
    requires fits { at * width + width ≤ length words.old }
    requires sizes { map length arrays.old ≡ array_sizes config.now }
    requires room { length touches.old.list + length (stage_slots (stage_at config.now.stages k)) ≤ touches.old.room }
    ensures before { take (at * width) words.new ≡ take (at * width) words.old }
    ensures after { drop (at * width + width) words.new ≡ drop (at * width + width) words.old }
    ensures out { shown_register full (take width (drop (at * width) words.new)) ≡ (acts (H.meaning hash.now) (stage_at config.now.stages k) arrays.old (shown_register full (take width (drop (at * width) words.old)))).1 }
    ensures arrays { arrays.new ≡ (acts (H.meaning hash.now) (stage_at config.now.stages k) arrays.old (shown_register full (take width (drop (at * width) words.old)))).0 }
    ensures touches { touches.new.list ≡ touches.old.list ++ touches_before (k + 1) (stage_at config.now.stages k) arrays.old (shown_register full (take width (drop (at * width) words.old))) }
    ensures room { touches.new.room ≡ touches.old.room }
    ensures sizes { map length arrays.new ≡ map length arrays.old }
    ensures size { length words.new ≡ length words.old }
{
    if full {
        run_at::<T, H>(hash, config, k, at, width, words, arrays, touches);
    }
}

// All stages that have atoms, each on the place of its register.
fn advance_all<T: AtomTemplate, H: HashUnits>(
    hash: &H,
    config: &Config<T>,
    busy: &[usize],
    width: usize,
    position: usize,
    filled: &[bool],
    words: &mut [u32],
    arrays: &mut [Packet],
    touches: &mut Touches,
)
    requires runs { IsRunnable config.now }
    requires width { width ≡ config.now.containers }
    requires position { position < length config.now.stages }
    requires filled { length filled.now ≡ length config.now.stages }
    requires wide { length words.old ≡ length config.now.stages * width }
    requires busy { busy.now ≡ busy_from 0 config.now.stages }
    requires sizes { map length arrays.old ≡ array_sizes config.now }
    requires list { touches.old.list ≡ [] }
    requires room { length (flat_map stage_slots config.now.stages) ≤ touches.old.room }
    ensures arrays { arrays.new ≡ clocked config.now.stages (ring width position filled.now words.old) arrays.old }
    ensures registers { ring width position filled.now words.new ≡ results (acts (H.meaning hash.now)) config.now.stages (ring width position filled.now words.old) arrays.old }
    ensures touches { touches.new.list ≡ cycle_touches config.now (ring width position filled.now words.old) arrays.old }
    ensures room { touches.new.room ≡ touches.old.room }
    ensures sizes { map length arrays.new ≡ map length arrays.old }
    ensures size { length words.new ≡ length words.old }
{
    let depth = config.stages();
    for j in 0..busy.len() {
        let k = busy[j];
        let at = place(position, k, depth);
        advance_at::<T, H>(
            hash, config, k, filled[at], at, width, words, arrays, touches,
        );
    }
}

// All stages, which have nothing to do where no packet is in flight.
pub(crate) fn advance<T: AtomTemplate, H: HashUnits>(
    in_flight: usize,
    hash: &H,
    config: &Config<T>,
    busy: &[usize],
    width: usize,
    position: usize,
    filled: &[bool],
    words: &mut [u32],
    arrays: &mut [Packet],
    touches: &mut Touches,
)
    requires runs { IsRunnable config.now }
    requires width { width ≡ config.now.containers }
    requires position { position < length config.now.stages }
    requires filled { length filled.now ≡ length config.now.stages }
    requires wide { length words.old ≡ length config.now.stages * width }
    requires busy { busy.now ≡ busy_from 0 config.now.stages }
    requires sizes { map length arrays.old ≡ array_sizes config.now }
    requires flight { in_flight ≡ set_flags filled.now }
    requires list { touches.old.list ≡ [] }
    requires room { length (flat_map stage_slots config.now.stages) ≤ touches.old.room }
    ensures arrays { arrays.new ≡ clocked config.now.stages (ring width position filled.now words.old) arrays.old }
    ensures registers { ring width position filled.now words.new ≡ results (acts (H.meaning hash.now)) config.now.stages (ring width position filled.now words.old) arrays.old }
    ensures touches { touches.new.list ≡ cycle_touches config.now (ring width position filled.now words.old) arrays.old }
    ensures room { touches.new.room ≡ touches.old.room }
    ensures sizes { map length arrays.new ≡ map length arrays.old }
    ensures size { length words.new ≡ length words.old }
{
    if 0 < in_flight {
        advance_all::<T, H>(
            hash, config, busy, width, position, filled, words, arrays, touches,
        );
    }
}

/// Fills the words from the fields that enter, with 0 beyond them.
pub fn enter(fields: &[u32], words: &mut [u32])
    requires { length fields.now ≤ length words.old }
    ensures words { words.new ≡ fields.now ++ replicate (length words.old - length fields.now) 0 }
    ensures size { length words.new ≡ length words.old }
{
    let count = fields.len();
    words[..count].copy_from_slice(fields);
    words[count..].fill(0);
}

// What enters goes into a place.
fn take_in(entering: Option<&[u32]>, filled: &mut bool, words: &mut [u32])
    requires { FitsMost (length words.old) (option_map (λ fields. fields.now) entering) }
    ensures entered { shown_register filled.new words.new ≡ put_in (length words.old) (option_map (λ fields. fields.now) entering.entry) }
    ensures size { length words.new ≡ length words.old }
{
    match entering {
        Some(fields) => {
            enter(fields, words);
            *filled = true;
        }
        None => *filled = false,
    }
}

// Shows a packet behind the last stage, if there is one, and says so.
fn leave<T: AtomTemplate>(
    config: &Config<T>,
    full: bool,
    words: &[u32],
    leaving: &mut Packet,
) -> bool
    requires runs { IsRunnable config.now }
    requires wide { length words.now ≡ config.now.containers }
    requires size { length leaving.old ≡ length config.now.outputs }
    ensures told { result ≡ full }
    ensures left { LeavesAs (shown config.now (shown_register full words.now)) result leaving.old leaving.new }
{
    if full {
        show(config.outputs(), words, leaving.words_mut());
    }
    full
}

// How many packets are in flight once one has left or not, and one has come or not.
fn flight(before: usize, left: bool, came: bool) -> usize
    requires few { before ≤ 65535 }
    requires left { one_if left ≤ before }
    ensures { result + one_if left ≡ before + one_if came }
{
    before - usize::from(left) + usize::from(came)
}

// The packet in a place leaves, and then what enters takes the place.
pub(crate) fn exchange<T: AtomTemplate>(
    config: &Config<T>,
    entering: Option<&[u32]>,
    at: usize,
    width: usize,
    in_flight: &mut usize,
    filled: &mut [bool],
    words: &mut [u32],
    leaving: &mut Packet,
) -> bool
    requires runs { IsRunnable config.now }
    requires width { width ≡ config.now.containers }
    requires fields { FitsMost width (option_map (λ fields. fields.now) entering) }
    requires shown { length leaving.old ≡ length config.now.outputs }
    requires at { at < length filled.old }
    requires fits { at * width + width ≤ length words.old }
    requires few { length filled.old ≤ 65535 }
    requires flight { in_flight.old ≡ set_flags filled.old }
    ensures left { LeavesAs (shown config.now (slice_index_or (places width filled.old words.old) at None)) result leaving.old leaving.new }
    ensures places { places width filled.new words.new ≡ slice_set (places width filled.old words.old) at (put_in width (option_map (λ fields. fields.now) entering.entry)) }
    ensures flags { length filled.new ≡ length filled.old }
    ensures flight { in_flight.new ≡ set_flags filled.new }
    ensures size { length words.new ≡ length words.old }
{
    let from = at * width;
    let told = leave(config, filled[at], &words[from..from + width], leaving);
    take_in(entering, &mut filled[at], &mut words[from..from + width]);
    *in_flight = flight(*in_flight, told, filled[at]);
    told
}
