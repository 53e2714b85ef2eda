ghost use Rattle.std.specs.Prelude.{◌≡◌, ◌+◌, ◌<◌, IfOk, [], length, map, slice_index, slice_index_or, if◌then◌else◌};
ghost use Rattle.std.specs.List.{All, filter, range_with_len};
ghost use Rattle.codelets.specs.Answer.{codelet_of, codelets, slot_of, used};
ghost use Rattle.codelets.specs.Containers.{holders, place};
ghost use Rattle.codelets.specs.Cut.{has_flank, in_order, uses_codelet};
ghost use Rattle.codelets.specs.Cut.{level as its_level};
ghost use Rattle.codelets.specs.ByRows.{cut_by, linked_by};
ghost use Rattle.codelets.specs.Held.{held};
ghost use Rattle.codelets.specs.Linked.{twins_of};
ghost use Rattle.codelets.specs.Cut.{lines_by_number};
ghost use Rattle.codelets.specs.Lists.{AreApart};
ghost use Rattle.codelets.specs.Used.{AreOwners};

use crate::codelet::{Codelet, Kind};
use crate::groups::any_flank;
use crate::held::held_list;
use crate::leveling::copied;
use crate::owners::{Owners, owners_of};
use crate::pieces::{Pieces, used_places};
use crate::places::slots;
use crate::table::Table;
use dep_graph::Graph;
use dom_flat::Flat;
use dom_words::{Memory, Numbers, Seq};
use std::alloc::Global;

/// Codelets in their order.
pub type CodeletList = Seq<Codelet>;

// The positions of the codelets that a codelet uses.
fn used_list(
    alloc: Global,
    flat: &Flat,
    graph: &Graph,
    table: &Table,
    order: &Pieces,
    owners: &Owners,
    c: &[u32],
) -> Result<Numbers, Memory>
    requires table { table.now ≡ lines_by_number (cut_by flat.now graph.now) }
    requires order { order.now ≡ in_order (cut_by flat.now graph.now) }
    requires owners { AreOwners order.now owners.now }
    requires few { length order.now < 4294967296 }
    ensures { IfOk result (λ ks. ks ≡ used (cut_by flat.now graph.now) c.now) }
{
    used_places(alloc, flat, graph, table, order, owners, c)
}

// The least number of a codelet.
fn first_number(c: &[u32]) -> u32
    ensures { result ≡ slice_index c.now 0 }
{
    if c.is_empty() { 0 } else { c[0] }
}

// Whether a codelet works on state.
fn kind_of(flat: &Flat, graph: &Graph, c: &[u32]) -> Kind
    ensures { result ≡ (if has_flank (cut_by flat.now graph.now) c.now then Kind.Stateful else Kind.Stateless) }
{
    if any_flank(flat, graph, c) {
        Kind::Stateful
    } else {
        Kind::Stateless
    }
}

// A codelet as it is answered.
fn codelet(
    alloc: Global,
    flat: &Flat,
    graph: &Graph,
    twins: &[u32],
    table: &Table,
    pieces: &Pieces,
    order: &Pieces,
    owners: &Owners,
    values: &[u32],
    level: u32,
    c: &[u32],
) -> Result<Codelet, Memory>
    requires twins { twins.now ≡ twins_of (linked_by flat.now graph.now) }
    requires table { table.now ≡ lines_by_number (cut_by flat.now graph.now) }
    requires pieces { pieces.now ≡ (cut_by flat.now graph.now).all }
    requires order { order.now ≡ in_order (cut_by flat.now graph.now) }
    requires owners { AreOwners order.now owners.now }
    requires values { values.now ≡ holders (cut_by flat.now graph.now) }
    requires few { length values.now < 4294967296 }
    requires few_codelets { length order.now < 4294967296 }
    requires level { level ≡ its_level (cut_by flat.now graph.now) c.now }
    ensures { IfOk result (λ r. r ≡ codelet_of (cut_by flat.now graph.now) c.now) }
{
    let lines = copied(alloc, c)?;
    let uses = used_list(alloc, flat, graph, table, order, owners, c)?;
    let list = held_list(alloc, flat, graph, twins, table, pieces, c)?;
    let slots = slots(alloc, flat, graph, values, list.as_slice())?;
    Ok(Codelet {
        first: first_number(c),
        level,
        kind: kind_of(flat, graph, c),
        lines,
        uses,
        slots,
    })
}

/// The codelets in their order.
pub fn codelet_list(
    alloc: Global,
    flat: &Flat,
    graph: &Graph,
    twins: &[u32],
    table: &Table,
    pieces: &Pieces,
    order: &Pieces,
    values: &[u32],
    levels: &[u32],
) -> Result<CodeletList, Memory>
    requires twins { twins.now ≡ twins_of (linked_by flat.now graph.now) }
    requires table { table.now ≡ lines_by_number (cut_by flat.now graph.now) }
    requires pieces { pieces.now ≡ (cut_by flat.now graph.now).all }
    requires order { order.now ≡ in_order (cut_by flat.now graph.now) }
    requires small { All (λ d. All (λ a. a < 1024) d) order.now }
    requires values { values.now ≡ holders (cut_by flat.now graph.now) }
    requires few { length values.now < 4294967296 }
    requires few_codelets { length order.now < 4294967296 }
    requires apart { AreApart order.now }
    requires levels { levels.now ≡ map (its_level (cut_by flat.now graph.now)) order.now }
    ensures { IfOk result (λ cs. cs ≡ codelets (cut_by flat.now graph.now)) }
{
    let owners = owners_of(order);
    let mut list = Seq::new(alloc);
    for k in 0..order.len() {
        let level = level_at(flat, graph, order, levels, k);
        let next = codelet(
            alloc,
            flat,
            graph,
            twins,
            table,
            pieces,
            order,
            &owners,
            values,
            level,
            order.get(k).as_slice(),
        )?;
        list.push(next)?;
    }
    Ok(list)
}

// The level of a codelet of the order.
fn level_at(flat: &Flat, graph: &Graph, order: &Pieces, levels: &[u32], k: usize) -> u32
    requires levels { levels.now ≡ map (its_level (cut_by flat.now graph.now)) order.now }
    requires within { k < length order.now }
    ensures { result ≡ its_level (cut_by flat.now graph.now) (slice_index_or order.now k []) }
{
    levels[k]
}
