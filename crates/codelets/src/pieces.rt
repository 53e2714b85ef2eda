ghost use Rattle.std.specs.Prelude.{◌≡◌, ◌+◌, ◌<◌, IfOk, [], ◌∷◌, length, map};
ghost use Rattle.std.specs.List.{All, filter, list_any, range_with_len};
ghost use Rattle.codelets.specs.Cut.{line_uses, lines_by_number, used_in, uses_codelet};
ghost use Rattle.codelets.specs.ByRows.{cut_by, linked_by, use_lists};
ghost use Rattle.codelets.specs.Linked.{twins_of};
ghost use Rattle.codelets.specs.Lists.{AreApart, meet};
ghost use Rattle.codelets.specs.Used.{AreOwners, AreUsed};

use crate::groups::{class_with, is_in, is_least};
use crate::owners::{Owners, next_place, owners_of};
use crate::table::Table;
use crate::used::used_numbers;
use dep_graph::Graph;
use dom_flat::Flat;
use dom_words::{Memory, Numbers, Seq};
use std::alloc::Global;

/// Codelets, each as its statement numbers.
pub type Pieces = Seq<Numbers>;

// A list of one number.
fn single(alloc: Global, number: u32) -> Result<Numbers, Memory>
    ensures { IfOk result (λ c. c ≡ number ∷ []) }
{
    let mut piece = Seq::new(alloc);
    piece.push(number)?;
    Ok(piece)
}

/// The codelets by their least statement number: the classes, then the twins.
pub fn by_number(
    alloc: Global,
    flat: &Flat,
    graph: &Graph,
    numbers: &[u32],
    twins: &[u32],
) -> Result<Pieces, Memory>
    requires numbers { numbers.now ≡ range_with_len 0 (length flat.now.lines) }
    requires twins { twins.now ≡ twins_of (linked_by flat.now graph.now) }
    ensures { IfOk result (λ all. all ≡ (cut_by flat.now graph.now).all) }
{
    let mut pieces = Seq::new(alloc);
    for a in numbers {
        if is_least(flat, graph, numbers, *a) {
            let class = class_with(alloc, flat, graph, *a)?;
            pieces.push(class)?;
        }
    }
    let count = flat.lines.len() as u32;
    for t in twins {
        let piece = single(alloc, count + *t)?;
        pieces.push(piece)?;
    }
    Ok(pieces)
}

/// Whether a number is in both lists.
pub fn meets(c: &[u32], d: &[u32]) -> bool
    ensures { result ≡ meet c.now d.now }
{
    c.iter().any(|number| is_in(d, *number))
}

// Whether a codelet uses another, where the numbers that it uses are given.
fn uses_piece(flat: &Flat, graph: &Graph, used: &[u32], c: &[u32], d: &[u32]) -> bool
    requires { AreUsed (length flat.now.fields) (λ v. list_any (line_uses (cut_by flat.now graph.now) v) c.now) used.now }
    ensures { result ≡ uses_codelet (cut_by flat.now graph.now) c.now d.now }
{
    meets(d, used) && !meets(c, d)
}

/// The places of the codelets that a codelet uses in a list of codelets. Goes from each place that has a used number to the
/// next one.
pub fn used_places(
    alloc: Global,
    flat: &Flat,
    graph: &Graph,
    table: &Table,
    list: &Pieces,
    owners: &Owners,
    c: &[u32],
) -> Result<Numbers, Memory>
    requires table { table.now ≡ lines_by_number (cut_by flat.now graph.now) }
    requires few { length list.now < 4294967296 }
    requires owners { AreOwners list.now owners.now }
    ensures { IfOk result (λ ks. ks ≡ used_in (cut_by flat.now graph.now) list.now c.now) }
{
    let end = list.len() as u32;
    let used = used_numbers(alloc, flat, graph, table, c)?;
    let mut places = Seq::new(alloc);
    let mut place = next_place(owners, used.as_slice(), 0, end);
    while place < end {
        let d = list.get(place as usize).as_slice();
        if uses_piece(flat, graph, used.as_slice(), c, d) {
            places.push(place)?;
        }
        place = next_place(owners, used.as_slice(), place + 1, end);
    }
    Ok(places)
}

/// The places of the codelets that each codelet uses, by number.
pub fn places_used(
    alloc: Global,
    flat: &Flat,
    graph: &Graph,
    table: &Table,
    pieces: &Pieces,
) -> Result<Pieces, Memory>
    requires table { table.now ≡ lines_by_number (cut_by flat.now graph.now) }
    requires small { All (λ d. All (λ a. a < 1024) d) pieces.now }
    requires few { length pieces.now < 4294967296 }
    requires apart { AreApart pieces.now }
    requires pieces { pieces.now ≡ (cut_by flat.now graph.now).all }
    ensures { IfOk result (λ lists. lists ≡ use_lists (cut_by flat.now graph.now)) }
{
    let owners = owners_of(pieces);
    let mut lists = Seq::new(alloc);
    for k in 0..pieces.len() {
        let c = pieces.get(k).as_slice();
        let places = used_places(alloc, flat, graph, table, pieces, &owners, c)?;
        lists.push(places)?;
    }
    Ok(lists)
}
