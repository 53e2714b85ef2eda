ghost use Rattle.std.specs.Prelude.{◌≡◌, ◌+◌, ◌<◌, ◌++◌, IfOk, ℕ, List, [], ◌∷◌, length, map};
ghost use Rattle.std.specs.List.{All, flat_map};
ghost use Rattle.std.specs.Option.{option_to_list};
ghost use Rattle.codelets.specs.Containers.{holders};
ghost use Rattle.codelets.specs.Cut.{in_order};
ghost use Rattle.codelets.specs.ByRows.{cut_by, linked_by};
ghost use Rattle.codelets.specs.Held.{exports, old_and_new};
ghost use Rattle.codelets.specs.Linked.{twins_of};
ghost use Rattle.codelets.specs.Lists.{once};
ghost use Rattle.codelets.specs.Cut.{lines_by_number};

use crate::groups::{any_flank, is_in, value_of};
use crate::held::{Held, held_list};
use crate::pieces::Pieces;
use crate::table::Table;
use dep_graph::Graph;
use dom_flat::Flat;
use dom_words::{Memory, Numbers, Seq};
use std::alloc::Global;

// Puts a value at the end, where there is one.
fn put(values: &mut Numbers, value: Option<u32>) -> Result<(), Memory>
    ensures { IfOk result (λ _. values.new ≡ values.old ++ option_to_list value) }
{
    match value {
        Some(value) => values.push(value),
        None => Ok(()),
    }
}

// Puts the exported values of an array at the end.
fn put_both(values: &mut Numbers, held: &Held) -> Result<(), Memory>
    ensures { IfOk result (λ _. values.new ≡ values.old ++ old_and_new held.now) }
{
    put(values, held.old)?;
    put(values, held.new)
}

// The exported values of arrays.
#[tactic(auto, using(crate::proofs::Onces::flat_more))]
fn held_values(alloc: Global, list: &[Held]) -> Result<Numbers, Memory>
    ensures { IfOk result (λ vs. vs ≡ flat_map old_and_new list.now) }
{
    let mut values = Seq::new(alloc);
    for held in list {
        put_both(&mut values, held)?;
    }
    Ok(values)
}

// The values that statements make.
fn own_values(alloc: Global, flat: &Flat, c: &[u32]) -> Result<Numbers, Memory>
    requires { All (λ a. a < 1024) c.now }
    ensures { IfOk result (λ vs. vs ≡ map (λ b. length flat.now.fields + b) c.now) }
{
    let mut values = Seq::new(alloc);
    for k in 0..c.len() {
        values.push(value_of(flat, c[k]))?;
    }
    Ok(values)
}

/// The values that a codelet exports.
pub fn exported_values(
    alloc: Global,
    flat: &Flat,
    graph: &Graph,
    twins: &[u32],
    table: &Table,
    pieces: &Pieces,
    c: &[u32],
) -> Result<Numbers, Memory>
    requires twins { twins.now ≡ twins_of (linked_by flat.now graph.now) }
    requires table { table.now ≡ lines_by_number (cut_by flat.now graph.now) }
    requires pieces { pieces.now ≡ (cut_by flat.now graph.now).all }
    requires small { All (λ a. a < 1024) c.now }
    ensures { IfOk result (λ vs. vs ≡ exports (cut_by flat.now graph.now) c.now) }
{
    if any_flank(flat, graph, c) {
        let list = held_list(alloc, flat, graph, twins, table, pieces, c)?;
        held_values(alloc, list.as_slice())
    } else {
        own_values(alloc, flat, c)
    }
}

// Puts a value at the end, where it is not there yet.
fn note(values: &mut Numbers, value: u32) -> Result<(), Memory>
    ensures { IfOk result (λ _. (xs : List ℕ) → values.old ≡ once [] xs → values.new ≡ once [] (xs ++ value ∷ [])) }
{
    if is_in(values.as_slice(), value) {
        Ok(())
    } else {
        values.push(value)?;
        Ok(())
    }
}

// Puts values at the end, where they are not there yet.
fn note_all(values: &mut Numbers, more: &[u32]) -> Result<(), Memory>
    ensures { IfOk result (λ _. (xs : List ℕ) → values.old ≡ once [] xs → values.new ≡ once [] (xs ++ more.now)) }
{
    for value in more {
        note(values, *value)?;
    }
    Ok(())
}

/// The values that have containers, by container.
pub fn holder_list(
    alloc: Global,
    flat: &Flat,
    graph: &Graph,
    twins: &[u32],
    table: &Table,
    pieces: &Pieces,
    order: &Pieces,
) -> Result<Numbers, Memory>
    requires twins { twins.now ≡ twins_of (linked_by flat.now graph.now) }
    requires table { table.now ≡ lines_by_number (cut_by flat.now graph.now) }
    requires pieces { pieces.now ≡ (cut_by flat.now graph.now).all }
    requires order { order.now ≡ in_order (cut_by flat.now graph.now) }
    requires small { All (λ d. All (λ a. a < 1024) d) order.now }
    ensures { IfOk result (λ vs. vs ≡ holders (cut_by flat.now graph.now)) }
{
    let mut values = Seq::new(alloc);
    for v in 0..flat.fields.len() {
        note(&mut values, v as u32)?;
    }
    for k in 0..order.len() {
        let more = exported_values(
            alloc,
            flat,
            graph,
            twins,
            table,
            pieces,
            order.get(k).as_slice(),
        )?;
        note_all(&mut values, more.as_slice())?;
    }
    Ok(values)
}
