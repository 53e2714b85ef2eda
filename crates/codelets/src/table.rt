ghost use Rattle.std.specs.Prelude.{◌≡◌, ◌+◌, ◌<◌, IfOk, MatchOption, None, Some, length, map};
ghost use Rattle.codelets.specs.Answer.{line_in};
ghost use Rattle.std.specs.List.{list_any, range_with_len};
ghost use Rattle.codelets.specs.Cut.{line_of, line_uses, uses_codelet};
ghost use Rattle.codelets.specs.ByRows.{cut_by, linked_by};
ghost use Rattle.codelets.specs.Linked.{twins_of};
ghost use Rattle.codelets.specs.Lists.{meet};
ghost use Rattle.codelets.specs.Cut.{lines_by_number};

use crate::groups::{is_in, line_names};
use crate::operands::line_for;
use dep_graph::Graph;
use dom_flat::{Flat, Line};
use dom_words::{Memory, Seq};
use std::alloc::Global;

/// The statements by number, twins included.
pub type Table = Seq<Option<Line>>;

// The statement with a number.
fn numbered_line(
    alloc: Global,
    flat: &Flat,
    graph: &Graph,
    twins: &[u32],
    number: u32,
) -> Result<Option<Line>, Memory>
    requires { twins.now ≡ twins_of (linked_by flat.now graph.now) }
    ensures { IfOk result (λ o. o ≡ line_of (cut_by flat.now graph.now) number) }
{
    let count = flat.lines.len() as u32;
    if number < count {
        let line = line_for(
            alloc,
            flat,
            graph,
            twins,
            Some(number),
            flat.lines.get(number as usize),
        )?;
        Ok(Some(line))
    } else if is_in(twins, number - count) {
        let line = line_for(
            alloc,
            flat,
            graph,
            twins,
            None,
            flat.lines.get((number - count) as usize),
        )?;
        Ok(Some(line))
    } else {
        Ok(None)
    }
}

/// All statements by number.
pub fn numbered_lines(
    alloc: Global,
    flat: &Flat,
    graph: &Graph,
    twins: &[u32],
) -> Result<Table, Memory>
    requires { twins.now ≡ twins_of (linked_by flat.now graph.now) }
    ensures { IfOk result (λ t. t ≡ lines_by_number (cut_by flat.now graph.now)) }
{
    let mut table = Seq::new(alloc);
    for number in 0..2 * flat.lines.len() as u32 {
        let line = numbered_line(alloc, flat, graph, twins, number)?;
        table.push(line)?;
    }
    Ok(table)
}

/// The statement with a number.
pub fn line_at(table: &Table, number: u32) -> Option<&Line>
    ensures { MatchOption result (line_in table.now number ≡ None) (λ l. line_in table.now number ≡ Some l.now) }
{
    let at = number as usize;
    if at < table.len() {
        match table.get(at) {
            Some(line) => Some(line),
            None => None,
        }
    } else {
        None
    }
}

/// Whether the statement with a number uses a value.
pub fn number_uses(flat: &Flat, graph: &Graph, table: &Table, value: u32, number: u32) -> bool
    requires { table.now ≡ lines_by_number (cut_by flat.now graph.now) }
    ensures { result ≡ line_uses (cut_by flat.now graph.now) value number }
{
    let at = number as usize;
    if at < table.len() {
        match table.get(at) {
            Some(line) => line_names(line, value),
            None => false,
        }
    } else {
        false
    }
}
