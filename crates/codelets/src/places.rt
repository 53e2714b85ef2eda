ghost use Rattle.std.specs.Prelude.{◌≡◌, ◌<◌, IfOk, length, map};
ghost use Rattle.codelets.specs.Answer.{option_place, slot_of};
ghost use Rattle.codelets.specs.Containers.{holders};
ghost use Rattle.codelets.specs.ByRows.{cut_by};
ghost use Rattle.codelets.specs.Lists.{place_in};

use crate::codelet::{Slot, SlotList};
use crate::held::Held;
use dep_graph::Graph;
use dom_flat::Flat;
use dom_words::{Memory, Seq};
use std::alloc::Global;

/// The first place of a value.
pub fn place_of(values: &[u32], value: u32) -> u32
    requires { length values.now < 4294967296 }
    ensures { result ≡ place_in values.now value }
{
    let mut place = 0;
    while place < values.len() {
        if values[place] == value {
            return place as u32;
        }
        place += 1;
    }
    place as u32
}

// The container of an exported value.
fn place_for(flat: &Flat, graph: &Graph, values: &[u32], value: Option<u32>) -> Option<u32>
    requires values { values.now ≡ holders (cut_by flat.now graph.now) }
    requires few { length values.now < 4294967296 }
    ensures { result ≡ option_place (cut_by flat.now graph.now) value }
{
    match value {
        Some(value) => Some(place_of(values, value)),
        None => None,
    }
}

// An array of a codelet, with containers.
fn slot(flat: &Flat, graph: &Graph, values: &[u32], held: &Held) -> Slot
    requires values { values.now ≡ holders (cut_by flat.now graph.now) }
    requires few { length values.now < 4294967296 }
    ensures { result ≡ slot_of (cut_by flat.now graph.now) held.now }
{
    Slot {
        array: held.array,
        index: held.index,
        old: place_for(flat, graph, values, held.old),
        new: place_for(flat, graph, values, held.new),
    }
}

/// The arrays of a codelet, with containers.
pub fn slots(
    alloc: Global,
    flat: &Flat,
    graph: &Graph,
    values: &[u32],
    list: &[Held],
) -> Result<SlotList, Memory>
    requires values { values.now ≡ holders (cut_by flat.now graph.now) }
    requires few { length values.now < 4294967296 }
    ensures { IfOk result (λ ss. ss ≡ map (slot_of (cut_by flat.now graph.now)) list.now) }
{
    let mut slots = Seq::new(alloc);
    for held in list {
        slots.push(slot(flat, graph, values, held))?;
    }
    Ok(slots)
}
