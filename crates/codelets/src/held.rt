ghost use Rattle.std.specs.Prelude.{◌≡◌, ◌+◌, ◌<◌, ◌&&◌, ◌||◌, ◌++◌, IfOk, length, map, not, slice_get};
ghost use Rattle.std.specs.List.{list_any, range_with_len};
ghost use Rattle.std.specs.Option.{option_to_list};
ghost use Rattle.codelets.specs.Cut.{line_uses, outer};
ghost use Rattle.codelets.specs.ByRows.{cut_by, linked_by};
ghost use Rattle.codelets.specs.Held.{held, held_at, held_by, if_so, is_new, is_shared, is_this, new_of, stored_by, written};
ghost use Rattle.codelets.specs.Linked.{is_so, twins_of};
ghost use Rattle.codelets.specs.Lists.{meet, option_or};
ghost use Rattle.codelets.specs.Cut.{lines_by_number};
ghost use Rattle.dom_flat.specs.Lines.{is_fetch, is_value};

use crate::groups::{is_in, names, value_of};
use crate::operands::operand_for;
use crate::pieces::{Pieces, meets};
use crate::table::{Table, number_uses};
use dep_graph::Graph;
use dom_flat::{Flat, Line, Operand};
use dom_words::{Memory, Numbers, Seq};
use std::alloc::Global;

/// An array of a codelet: the index of its flanks, the value of its read flank, what its write flank stores, and which of the
/// two words are exported, as values.
#[derive(Clone, Copy, Debug, PartialEq, Eq)]
pub struct Held {
    pub array: u32,
    pub index: Operand,
    pub read: u32,
    pub write: Option<Operand>,
    pub old: Option<u32>,
    pub new: Option<u32>,
}

/// Arrays of a codelet.
pub type HeldList = Seq<Held>;

// Whether an output is a value, once twins are put in.
fn shows(flat: &Flat, graph: &Graph, twins: &[u32], output: Operand, value: u32) -> bool
    requires { twins.now ≡ twins_of (linked_by flat.now graph.now) }
    ensures { result ≡ is_value value (outer (cut_by flat.now graph.now) output) }
{
    names(operand_for(flat, graph, twins, None, output), value)
}

fn any_shows(flat: &Flat, graph: &Graph, twins: &[u32], outputs: &[Operand], value: u32) -> bool
    requires { twins.now ≡ twins_of (linked_by flat.now graph.now) }
    ensures { result ≡ list_any (λ o. is_value value (outer (cut_by flat.now graph.now) o)) outputs.now }
{
    outputs
        .iter()
        .any(|output| shows(flat, graph, twins, *output, value))
}

// Whether a statement of a codelet uses a value.
fn piece_uses(flat: &Flat, graph: &Graph, table: &Table, piece: &[u32], value: u32) -> bool
    requires { table.now ≡ lines_by_number (cut_by flat.now graph.now) }
    ensures { result ≡ list_any (line_uses (cut_by flat.now graph.now) value) piece.now }
{
    piece
        .iter()
        .any(|b| number_uses(flat, graph, table, value, *b))
}

// Whether another codelet than c uses a value.
fn other_uses(
    flat: &Flat,
    graph: &Graph,
    table: &Table,
    c: &[u32],
    piece: &Numbers,
    value: u32,
) -> bool
    requires { table.now ≡ lines_by_number (cut_by flat.now graph.now) }
    ensures { result ≡ (not (meet piece.now c.now) && list_any (line_uses (cut_by flat.now graph.now) value) piece.now) }
{
    piece_uses(flat, graph, table, piece.as_slice(), value) && !meets(piece.as_slice(), c)
}

fn any_other_uses(
    flat: &Flat,
    graph: &Graph,
    table: &Table,
    c: &[u32],
    pieces: &[Numbers],
    value: u32,
) -> bool
    requires { table.now ≡ lines_by_number (cut_by flat.now graph.now) }
    ensures { result ≡ list_any (λ d. not (meet d c.now) && list_any (line_uses (cut_by flat.now graph.now) value) d) pieces.now }
{
    pieces
        .iter()
        .any(|piece| other_uses(flat, graph, table, c, piece, value))
}

/// Whether an output or another codelet uses a value of codelet c.
pub fn is_asked_for(
    flat: &Flat,
    graph: &Graph,
    twins: &[u32],
    table: &Table,
    pieces: &Pieces,
    c: &[u32],
    value: u32,
) -> bool
    requires twins { twins.now ≡ twins_of (linked_by flat.now graph.now) }
    requires table { table.now ≡ lines_by_number (cut_by flat.now graph.now) }
    requires pieces { pieces.now ≡ (cut_by flat.now graph.now).all }
    ensures { result ≡ is_shared (cut_by flat.now graph.now) c.now value }
{
    any_shows(flat, graph, twins, flat.outputs.as_slice(), value)
        || any_other_uses(flat, graph, table, c, pieces.as_slice(), value)
}

// What a statement stores, where it is the write flank of an array.
fn stored_at(flat: &Flat, graph: &Graph, twins: &[u32], array: u32, number: u32) -> Option<Operand>
    requires { twins.now ≡ twins_of (linked_by flat.now graph.now) }
    ensures { result ≡ stored_by (cut_by flat.now graph.now) array number (slice_get flat.now.lines number) }
{
    let at = number as usize;
    if at < flat.lines.len() {
        stored_in(flat, graph, twins, array, number, flat.lines.get(at))
    } else {
        None
    }
}

fn stored_in(
    flat: &Flat,
    graph: &Graph,
    twins: &[u32],
    array: u32,
    number: u32,
    line: &Line,
) -> Option<Operand>
    requires { twins.now ≡ twins_of (linked_by flat.now graph.now) }
    ensures { result ≡ stored_by (cut_by flat.now graph.now) array number (Some line.now) }
{
    match line {
        Line::Store {
            array: stored,
            value,
            ..
        } => {
            if *stored == array {
                Some(operand_for(flat, graph, twins, Some(number), *value))
            } else {
                None
            }
        }
        _ => None,
    }
}

// The first of two answers.
fn first(a: Option<Operand>, b: Option<Operand>) -> Option<Operand>
    ensures { result ≡ option_or a b }
{
    match a {
        Some(operand) => Some(operand),
        None => b,
    }
}

// What a codelet writes to an array.
#[tactic(auto, using(crate::proofs::Firsts::first_more))]
fn written_by(flat: &Flat, graph: &Graph, twins: &[u32], c: &[u32], array: u32) -> Option<Operand>
    requires { twins.now ≡ twins_of (linked_by flat.now graph.now) }
    ensures { result ≡ written (cut_by flat.now graph.now) c.now array }
{
    let mut found = None;
    for b in c {
        found = first(found, stored_at(flat, graph, twins, array, *b));
    }
    found
}

// A read flank.
fn fetch(line: &Line) -> bool
    ensures { result ≡ is_fetch line.now }
{
    matches!(line, Line::Fetch { .. })
}

// Whether the statement with a number is a read flank.
fn fetch_at(flat: &Flat, graph: &Graph, number: u32) -> bool
    ensures { result ≡ is_so (linked_by flat.now graph.now) is_fetch number }
{
    let at = number as usize;
    at < flat.lines.len() && fetch(flat.lines.get(at))
}

// Whether what is written is a value.
fn is_that(write: Option<Operand>, value: u32) -> bool
    ensures { result ≡ is_this value write }
{
    match write {
        Some(operand) => names(operand, value),
        None => false,
    }
}

fn either(a: bool, b: bool) -> bool
    ensures { result ≡ (a || b) }
{
    a || b
}

fn both(a: bool, b: bool) -> bool
    ensures { result ≡ (a && b) }
{
    a && b
}

// Whether a codelet writes a value to an array before this one.
#[tactic(auto, using(crate::proofs::Ranges::any_more))]
fn written_before(
    flat: &Flat,
    graph: &Graph,
    twins: &[u32],
    c: &[u32],
    array: u32,
    value: u32,
) -> bool
    requires { twins.now ≡ twins_of (linked_by flat.now graph.now) }
    ensures { result ≡ list_any (λ k. is_this value (written (cut_by flat.now graph.now) c.now k)) (range_with_len 0 array) }
{
    let mut found = false;
    for k in 0..array {
        found = either(found, is_that(written_by(flat, graph, twins, c, k), value));
    }
    found
}

// Whether a written value is exported at this array.
fn is_exported(
    flat: &Flat,
    graph: &Graph,
    twins: &[u32],
    table: &Table,
    pieces: &Pieces,
    c: &[u32],
    array: u32,
    value: u32,
) -> bool
    requires twins { twins.now ≡ twins_of (linked_by flat.now graph.now) }
    requires table { table.now ≡ lines_by_number (cut_by flat.now graph.now) }
    requires pieces { pieces.now ≡ (cut_by flat.now graph.now).all }
    ensures { result ≡ is_new (cut_by flat.now graph.now) c.now array value }
{
    let fields = flat.fields.len() as u32;
    let made = value.saturating_sub(fields);
    let own = both(!(value < fields), is_in(c, made));
    let asked = is_asked_for(flat, graph, twins, table, pieces, c, value);
    let first = both(asked, !written_before(flat, graph, twins, c, array, value));
    both(own, both(!fetch_at(flat, graph, made), first))
}

// A value, where it is exported.
fn when(is_exported: bool, value: u32) -> Option<u32>
    ensures { result ≡ if_so is_exported value }
{
    if is_exported { Some(value) } else { None }
}

// The written value, where it is exported at this array.
fn new_value(
    flat: &Flat,
    graph: &Graph,
    twins: &[u32],
    table: &Table,
    pieces: &Pieces,
    c: &[u32],
    array: u32,
    write: Option<Operand>,
) -> Option<u32>
    requires twins { twins.now ≡ twins_of (linked_by flat.now graph.now) }
    requires table { table.now ≡ lines_by_number (cut_by flat.now graph.now) }
    requires pieces { pieces.now ≡ (cut_by flat.now graph.now).all }
    ensures { result ≡ new_of (cut_by flat.now graph.now) c.now array write }
{
    match write {
        None => None,
        Some(Operand::Const(_)) => None,
        Some(Operand::Value(value)) => when(
            is_exported(flat, graph, twins, table, pieces, c, array, value),
            value,
        ),
    }
}

// An array of a codelet, where a statement is its read flank.
fn held_line(
    flat: &Flat,
    graph: &Graph,
    twins: &[u32],
    table: &Table,
    pieces: &Pieces,
    c: &[u32],
    array: u32,
    number: u32,
    line: &Line,
) -> Option<Held>
    requires twins { twins.now ≡ twins_of (linked_by flat.now graph.now) }
    requires table { table.now ≡ lines_by_number (cut_by flat.now graph.now) }
    requires pieces { pieces.now ≡ (cut_by flat.now graph.now).all }
    requires small { number < 1024 }
    ensures { result ≡ held_by (cut_by flat.now graph.now) c.now array number (Some line.now) }
{
    match line {
        Line::Fetch { array: read, index } => {
            if *read == array {
                let value = value_of(flat, number);
                let write = written_by(flat, graph, twins, c, array);
                Some(Held {
                    array,
                    index: operand_for(flat, graph, twins, Some(number), *index),
                    read: value,
                    write,
                    old: when(
                        is_asked_for(flat, graph, twins, table, pieces, c, value),
                        value,
                    ),
                    new: new_value(flat, graph, twins, table, pieces, c, array, write),
                })
            } else {
                None
            }
        }
        _ => None,
    }
}

fn held_number(
    flat: &Flat,
    graph: &Graph,
    twins: &[u32],
    table: &Table,
    pieces: &Pieces,
    c: &[u32],
    array: u32,
    number: u32,
) -> Option<Held>
    requires twins { twins.now ≡ twins_of (linked_by flat.now graph.now) }
    requires table { table.now ≡ lines_by_number (cut_by flat.now graph.now) }
    requires pieces { pieces.now ≡ (cut_by flat.now graph.now).all }
    ensures { result ≡ held_by (cut_by flat.now graph.now) c.now array number (slice_get flat.now.lines number) }
{
    let at = number as usize;
    if at < flat.lines.len() {
        held_line(
            flat,
            graph,
            twins,
            table,
            pieces,
            c,
            array,
            number,
            flat.lines.get(at),
        )
    } else {
        None
    }
}

fn first_held(a: Option<Held>, b: Option<Held>) -> Option<Held>
    ensures { result ≡ option_or a b }
{
    match a {
        Some(held) => Some(held),
        None => b,
    }
}

// An array of a codelet, where it has it.
#[tactic(auto, using(crate::proofs::Firsts::first_more))]
fn held_array(
    flat: &Flat,
    graph: &Graph,
    twins: &[u32],
    table: &Table,
    pieces: &Pieces,
    c: &[u32],
    array: u32,
) -> Option<Held>
    requires twins { twins.now ≡ twins_of (linked_by flat.now graph.now) }
    requires table { table.now ≡ lines_by_number (cut_by flat.now graph.now) }
    requires pieces { pieces.now ≡ (cut_by flat.now graph.now).all }
    ensures { result ≡ held_at (cut_by flat.now graph.now) c.now array }
{
    let mut found = None;
    for b in c {
        found = first_held(
            found,
            held_number(flat, graph, twins, table, pieces, c, array, *b),
        );
    }
    found
}

// Puts an array at the end, where there is one.
fn put(list: &mut HeldList, held: Option<Held>) -> Result<(), Memory>
    ensures { IfOk result (λ _. list.new ≡ list.old ++ option_to_list held) }
{
    match held {
        Some(held) => list.push(held),
        None => Ok(()),
    }
}

/// The arrays of a codelet, in order.
#[tactic(auto, using(crate::proofs::Ranges::kept_more))]
pub fn held_list(
    alloc: Global,
    flat: &Flat,
    graph: &Graph,
    twins: &[u32],
    table: &Table,
    pieces: &Pieces,
    c: &[u32],
) -> Result<HeldList, Memory>
    requires twins { twins.now ≡ twins_of (linked_by flat.now graph.now) }
    requires table { table.now ≡ lines_by_number (cut_by flat.now graph.now) }
    requires pieces { pieces.now ≡ (cut_by flat.now graph.now).all }
    ensures { IfOk result (λ hs. hs ≡ held (cut_by flat.now graph.now) c.now) }
{
    let mut list = Seq::new(alloc);
    for k in 0..flat.arrays.len() {
        put(
            &mut list,
            held_array(flat, graph, twins, table, pieces, c, k as u32),
        )?;
    }
    Ok(list)
}
