ghost use Rattle.std.specs.Prelude.{◌≡◌, ◌+◌, ◌%◌, ◌<◌, ◌≤◌, ◌++◌, length, map, slice_index, slice_set, true};
ghost use Rattle.std.specs.List.{AllByRecursion};
ghost use Rattle.dom_words.specs.State.{array_of};
ghost use Rattle.atom_traits.specs.Form.{port_word};
ghost use Rattle.atom_traits.specs.Tests.{port_below};
ghost use Rattle.banzai_config.specs.Action.{export_to, new_words, old_word, put, slot_element, slot_exports, slot_writes, store};
ghost use Rattle.banzai_config.specs.Parts.{fit_form};
ghost use Rattle.banzai_machine.specs.Runnable.{ExportWithin, FitWithin, SlotWithin};
ghost use Rattle.banzai_machine.specs.Touches.{touch_of};

use crate::touch::Touch;
use crate::touches::Touches;
use atom_traits::{AtomTemplate, Port, Ports};
use banzai_config::{FitAtom, PartSlot};
use dom_words::Packet;

// The word of a port.
fn port_value(port: Port, words: &[u32]) -> u32
    requires { port_below (length words.now) port ≡ true }
    ensures { result ≡ port_word port words.now }
{
    match port {
        Port::Const(word) => word,
        Port::Container(at) => words[at as usize],
    }
}

// A word modulo a length.
fn modulo(word: u32, length: usize) -> u32
    requires { 0 < length }
    ensures value { result ≡ word % length }
    ensures within { result < length }
{
    (word as usize % length) as u32
}

// The element that a slot reaches.
fn element(slot: &PartSlot, words: &[u32], arrays: &[Packet]) -> u32
    requires { SlotWithin (map length arrays.now) (length words.now) slot.now }
    ensures at { result ≡ slot_element slot.now arrays.now words.now }
    ensures within { result < slice_index (map length arrays.now) slot.now.array }
{
    let length = arrays[slot.array as usize].words().len();
    modulo(port_value(slot.index, words), length)
}

// The element that a slot reaches, and the word there.
fn reach(slot: &PartSlot, words: &[u32], arrays: &[Packet]) -> (u32, u32)
    requires { SlotWithin (map length arrays.now) (length words.now) slot.now }
    ensures at { result.0 ≡ slot_element slot.now arrays.now words.now }
    ensures word { result.1 ≡ old_word slot.now arrays.now words.now }
    ensures within { result.0 < slice_index (map length arrays.now) slot.now.array }
{
    let at = element(slot, words, arrays);
    (at, arrays[slot.array as usize].words()[at as usize])
}

// Puts a word into a container, if one is named.
fn export(to: Option<u32>, word: u32, words: &mut [u32])
    requires { ExportWithin (length words.old) to }
    ensures put { words.new ≡ put (export_to to word) words.old }
    ensures size { length words.new ≡ length words.old }
{
    if let Some(at) = to {
        words[at as usize] = word;
    }
}

// Puts a word in the place of another of an array.
fn set_word(array: &mut Packet, at: u32, word: u32)
    requires { at < length array.old }
    ensures { array.new ≡ slice_set array.old at word }
{
    array.words_mut()[at as usize] = word;
}

// Puts the new word of a slot into its element, and both words where they are exported.
fn write(slot: &PartSlot, at: u32, pair: (u32, u32), words: &mut [u32], arrays: &mut [Packet])
    requires slot { SlotWithin (map length arrays.old) (length words.old) slot.now }
    requires at { at < slice_index (map length arrays.old) slot.now.array }
    ensures arrays { arrays.new ≡ slice_set arrays.old slot.now.array (slice_set (array_of arrays.old slot.now.array) at pair.1) }
    ensures words { words.new ≡ put (export_to slot.now.new pair.1) (put (export_to slot.now.old pair.0) words.old) }
    ensures sizes { map length arrays.new ≡ map length arrays.old }
    ensures size { length words.new ≡ length words.old }
{
    set_word(&mut arrays[slot.array as usize], at, pair.1);
    export(slot.old, pair.0, words);
    export(slot.new, pair.1, words);
}

// An atom of a stage with this number: it changes its own arrays and the containers that it names, and notes the elements.
pub(crate) fn fire<T: AtomTemplate>(
    number: u32,
    atom: &FitAtom<T::Params>,
    words: &mut [u32],
    arrays: &mut [Packet],
    touches: &mut Touches,
)
    requires within { FitWithin (map length arrays.old) (length words.old) (fit_form T.trees_of atom.now) }
    requires room { length touches.old.list + length atom.now.slots ≤ touches.old.room }
    ensures arrays { arrays.new ≡ store (slot_writes atom.now.slots (new_words (fit_form T.trees_of atom.now) arrays.old words.old) arrays.old words.old) arrays.old }
    ensures words { words.new ≡ put (slot_exports atom.now.slots (new_words (fit_form T.trees_of atom.now) arrays.old words.old) arrays.old words.old) words.old }
    ensures touches { touches.new.list ≡ touches.old.list ++ map (touch_of number arrays.old words.old) atom.now.slots }
    ensures room { touches.new.room ≡ touches.old.room }
    ensures sizes { map length arrays.new ≡ map length arrays.old }
    ensures size { length words.new ≡ length words.old }
{
    let slot = atom.slots.get(0);
    let (at, old) = reach(slot, words, arrays);
    touches.push(Touch {
        stage: number,
        array: slot.array,
        index: at,
    });
    if atom.slots.len() == 1 {
        let new = T::exec(&atom.params, [old, 0], words);
        write(slot, at, (old, new[0]), words, arrays);
    } else {
        let other = atom.slots.get(1);
        let (other_at, other_old) = reach(other, words, arrays);
        touches.push(Touch {
            stage: number,
            array: other.array,
            index: other_at,
        });
        let new = T::exec(&atom.params, [old, other_old], words);
        write(slot, at, (old, new[0]), words, arrays);
        write(other, other_at, (other_old, new[1]), words, arrays);
    }
}

/// Writes the field words of a packet that leaves.
pub fn show(outputs: &Ports, words: &[u32], leaving: &mut [u32])
    requires within { AllByRecursion (λ port. port_below (length words.now) port ≡ true) outputs.now }
    requires size { length leaving.old ≡ length outputs.now }
    ensures words { leaving.new ≡ map (λ port. port_word port words.now) outputs.now }
{
    for i in 0..outputs.len() {
        leaving[i] = port_value(*outputs.get(i), words);
    }
}
