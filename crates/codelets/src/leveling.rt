ghost use Rattle.std.specs.Prelude.{◌≡◌, ◌+◌, ◌<◌, ◌≤◌, IfOk, true, length, map, max, slice_index, suc};
ghost use Rattle.std.specs.Bool.{OnTrue};
ghost use Rattle.std.specs.List.{All};
ghost use Rattle.codelets.specs.Cut.{in_order, level};
ghost use Rattle.codelets.specs.ByRows.{cut_by};
ghost use Rattle.codelets.specs.Lists.{max_of};
ghost use Rattle.codelets.specs.ByRows.{use_lists};

use crate::groups::add;
use crate::pieces::Pieces;
use dep_graph::Graph;
use dom_flat::Flat;
use dom_words::{Memory, Numbers, Seq};
use std::alloc::Global;

// The level at a place.
fn level_of(levels: &[u32], place: u32) -> u32
    ensures value { result ≡ slice_index levels.now place }
    ensures low { All (λ l. l < 1000000) levels.now → result < 1000000 }
{
    let at = place as usize;
    if at < levels.len() { levels[at] } else { 0 }
}

// The greatest level at places.
fn best(places: &[u32], levels: &[u32]) -> u32
    ensures value { result ≡ max_of (map (slice_index levels.now) places.now) }
    ensures low { All (λ l. l < 1000000) levels.now → result < 1000000 }
{
    let mut best = 0;
    for place in places {
        best = larger(best, level_of(levels, *place));
    }
    best
}

// The larger of two numbers.
fn larger(a: u32, b: u32) -> u32
    ensures { result ≡ max a b }
{
    if a < b { b } else { a }
}

// The levels one round later: 1 more than the greatest of those used.
fn round(alloc: Global, lists: &Pieces, levels: &[u32]) -> Result<Vec<u32>, Memory>
    requires { All (λ l. l < 1000000) levels.now }
    ensures { IfOk result (λ v. v.items ≡ map (λ us. suc (max_of (map (slice_index levels.now) us))) lists.now) }
{
    let mut next = Vec::new(alloc);
    for k in 0..lists.len() {
        add(&mut next, best(lists.get(k).as_slice(), levels) + 1)?;
    }
    Ok(next)
}

// The greatest of numbers.
fn greatest(numbers: &[u32]) -> u32
    ensures { result ≡ max_of numbers.now }
{
    let mut best = 0;
    for number in numbers {
        best = larger(best, *number);
    }
    best
}

// Whether two lists are the same.
fn is_same(a: &[u32], b: &[u32]) -> bool
    ensures { OnTrue result (a.now ≡ b.now) }
{
    a == b
}

// 1 for each codelet.
fn ones(alloc: Global, pieces: &Pieces) -> Result<Vec<u32>, Memory>
    ensures { IfOk result (λ v. v.items ≡ map (λ _. 1) pieces.now) }
{
    let mut levels = Vec::new(alloc);
    for _k in 0..pieces.len() {
        add(&mut levels, 1)?;
    }
    Ok(levels)
}

// One sweep by number: the level of each codelet becomes 1 more than the greatest of those that it uses. Whether one has
// changed.
fn sweep(lists: &Pieces, levels: &mut [u32]) -> bool {
    let mut has_changed = false;
    for k in 0..lists.len() {
        let level = best(lists.get(k).as_slice(), levels).saturating_add(1);
        if k < levels.len() && levels[k] != level {
            levels[k] = level;
            has_changed = true;
        }
    }
    has_changed
}

// Numbers that mostly are the levels: what sweeps come to.
fn guessed(alloc: Global, pieces: &Pieces, lists: &Pieces) -> Result<Vec<u32>, Memory> {
    let mut levels = ones(alloc, pieces)?;
    for _k in 0..lists.len() {
        if !sweep(lists, levels.as_mut_slice()) {
            return Ok(levels);
        }
    }
    Ok(levels)
}

// The levels, by rounds until one changes nothing.
fn levels_by_rounds(
    alloc: Global,
    flat: &Flat,
    graph: &Graph,
    pieces: &Pieces,
    lists: &Pieces,
) -> Result<Vec<u32>, Memory>
    requires pieces { pieces.now ≡ (cut_by flat.now graph.now).all }
    requires lists { lists.now ≡ use_lists (cut_by flat.now graph.now) }
    ensures { IfOk result (λ v. v.items ≡ map (level (cut_by flat.now graph.now)) (cut_by flat.now graph.now).all) }
{
    let side = flat.lines.len() as u32 + 1;
    let mut levels = ones(alloc, pieces)?;
    for _k in 0..side * side {
        let next = round(alloc, lists, levels.as_slice())?;
        if is_same(next.as_slice(), levels.as_slice()) {
            return Ok(levels);
        }
        levels = next;
    }
    Ok(levels)
}

// Whether numbers are what one round makes of them, and none is greater than `most`.
fn are_settled(alloc: Global, lists: &Pieces, levels: &[u32], most: u32) -> Result<bool, Memory>
    requires { most < 1000000 }
    ensures { IfOk result (λ is_so. is_so ≡ true → (max_of levels.now ≤ most) × (levels.now ≡ map (λ us. suc (max_of (map (slice_index levels.now) us))) lists.now)) }
{
    if most < greatest(levels) {
        return Ok(false);
    }
    let next = round(alloc, lists, levels)?;
    Ok(is_same(next.as_slice(), levels))
}

/// The level of each codelet, by number.
pub fn find_levels(
    alloc: Global,
    flat: &Flat,
    graph: &Graph,
    pieces: &Pieces,
    lists: &Pieces,
) -> Result<Vec<u32>, Memory>
    requires pieces { pieces.now ≡ (cut_by flat.now graph.now).all }
    requires lists { lists.now ≡ use_lists (cut_by flat.now graph.now) }
    ensures { IfOk result (λ v. v.items ≡ map (level (cut_by flat.now graph.now)) (cut_by flat.now graph.now).all) }
{
    let side = flat.lines.len() as u32 + 1;
    let levels = guessed(alloc, pieces, lists)?;
    if are_settled(alloc, lists, levels.as_slice(), side * side)? {
        Ok(levels)
    } else {
        levels_by_rounds(alloc, flat, graph, pieces, lists)
    }
}

// A copy of a codelet's numbers.
pub fn copied(alloc: Global, piece: &[u32]) -> Result<Numbers, Memory>
    ensures { IfOk result (λ c. c ≡ piece.now) }
{
    let mut copy = Seq::new(alloc);
    for number in piece {
        copy.push(*number)?;
    }
    Ok(copy)
}

/// The codelets by level, and on a level by number.
pub fn ordered(
    alloc: Global,
    flat: &Flat,
    graph: &Graph,
    pieces: &Pieces,
    levels: &[u32],
) -> Result<Pieces, Memory>
    requires pieces { pieces.now ≡ (cut_by flat.now graph.now).all }
    requires levels { levels.now ≡ map (level (cut_by flat.now graph.now)) (cut_by flat.now graph.now).all }
    ensures { IfOk result (λ o. o ≡ in_order (cut_by flat.now graph.now)) }
{
    let top = greatest(levels);
    let mut order = Seq::new(alloc);
    for l in 0..top {
        for k in 0..pieces.len() {
            if levels[k] == l + 1 {
                let piece = copied(alloc, pieces.get(k).as_slice())?;
                order.push(piece)?;
            }
        }
    }
    Ok(order)
}

/// The levels of the codelets in their order.
pub fn ordered_levels(
    alloc: Global,
    flat: &Flat,
    graph: &Graph,
    pieces: &Pieces,
    levels: &[u32],
) -> Result<Vec<u32>, Memory>
    requires pieces { pieces.now ≡ (cut_by flat.now graph.now).all }
    requires levels { levels.now ≡ map (level (cut_by flat.now graph.now)) (cut_by flat.now graph.now).all }
    ensures { IfOk result (λ v. v.items ≡ map (level (cut_by flat.now graph.now)) (in_order (cut_by flat.now graph.now))) }
{
    let top = greatest(levels);
    let mut order = Vec::new(alloc);
    for l in 0..top {
        for k in 0..pieces.len() {
            if levels[k] == l + 1 {
                add(&mut order, l + 1)?;
            }
        }
    }
    Ok(order)
}
