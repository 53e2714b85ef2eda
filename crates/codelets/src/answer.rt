ghost use Rattle.std.specs.Prelude.{◌≡◌, ◌+◌, ◌<◌, ◌≤◌, IfOk, MatchOption, None, Some, length, map, slice_get};
ghost use Rattle.codelets.specs.Answer.{codelets, line_in};
ghost use Rattle.codelets.specs.Containers.{container, containers, holders};
ghost use Rattle.codelets.specs.Cut.{line_of, outer};
ghost use Rattle.codelets.specs.ByRows.{cut_by};
ghost use Rattle.codelets.specs.Flat.{cut_of, linked_of};
ghost use Rattle.codelets.specs.Leveled.{AreLeveled};
ghost use Rattle.codelets.specs.Laws.{CodeletLaws};
ghost use Rattle.codelets.specs.Lists.{place_if};
ghost use Rattle.codelets.specs.Cut.{lines_by_number};
ghost use Rattle.dep_graph.specs.Leads.{leads};
ghost use Rattle.dep_graph.specs.Rows.{cell};
ghost use Rattle.dep_graph.specs.Walk.{IsReach};

use crate::codelet::Codelet;
use crate::groups::{find_twins, is_in, numbers_below};
use crate::laws::codelets_hold;
use crate::leveling::{find_levels, ordered, ordered_levels};
use crate::listing::{CodeletList, codelet_list};
use crate::operands::operands_for;
use crate::pieces::{by_number, places_used};
use crate::places::place_of;
use crate::shown::holder_list;
use crate::table::{Table, line_at, numbered_lines};
use dep_graph::Graph;
use dom_flat::{Flat, Line, Operands};
use dom_words::{Memory, Numbers};
use std::alloc::Global;

/// A statement list cut into codelets, each the work of one atom.
#[derive(Drop)]
pub struct Codelets {
    flat: Flat,
    list: CodeletList,
    table: Table,
    values: Numbers,
    outputs: Operands,
    pub ghost is_list: { list ≡ codelets (cut_of flat) },
    pub ghost is_table: { table ≡ lines_by_number (cut_of flat) },
    pub ghost is_values: { values ≡ holders (cut_of flat) },
    pub ghost is_outputs: { outputs ≡ map (outer (cut_of flat)) flat.outputs },
    pub ghost leveled: { AreLeveled list },
    pub ghost few_codelets: { length list ≤ 1024 },
    pub ghost few_values: { length values ≤ length flat.fields + length flat.lines },
}

// Its parts, but for the list itself.
#[derive(Drop)]
struct Parts {
    list: CodeletList,
    table: Table,
    values: Numbers,
    outputs: Operands,
}

// The parts of a statement list with its graph.
fn parts_of(alloc: Global, flat: &Flat, graph: &Graph) -> Result<Parts, Memory>
    requires size { length graph.now ≡ length flat.now.lines }
    requires reach { IsReach (leads (length flat.now.fields) flat.now.lines) (length flat.now.lines) (cell graph.now) }
    ensures list { IfOk result (λ p. p.list ≡ codelets (cut_by flat.now graph.now)) }
    ensures table { IfOk result (λ p. p.table ≡ lines_by_number (cut_by flat.now graph.now)) }
    ensures values { IfOk result (λ p. p.values ≡ holders (cut_by flat.now graph.now)) }
    ensures few { IfOk result (λ p. length p.values < 4294967296) }
    ensures outputs { IfOk result (λ p. p.outputs ≡ map (outer (cut_by flat.now graph.now)) flat.now.outputs) }
{
    let numbers = numbers_below(alloc, flat.lines.len() as u32)?;
    let twins = find_twins(alloc, flat, graph, numbers.as_slice())?;
    let table = numbered_lines(alloc, flat, graph, twins.as_slice())?;
    let pieces = by_number(alloc, flat, graph, numbers.as_slice(), twins.as_slice())?;
    let lists = places_used(alloc, flat, graph, &table, &pieces)?;
    let levels = find_levels(alloc, flat, graph, &pieces, &lists)?;
    let order = ordered(alloc, flat, graph, &pieces, levels.as_slice())?;
    let order_levels = ordered_levels(alloc, flat, graph, &pieces, levels.as_slice())?;
    let values = holder_list(
        alloc,
        flat,
        graph,
        twins.as_slice(),
        &table,
        &pieces,
        &order,
    )?;
    let list = codelet_list(
        alloc,
        flat,
        graph,
        twins.as_slice(),
        &table,
        &pieces,
        &order,
        values.as_slice(),
        order_levels.as_slice(),
    )?;
    let outputs = operands_for(
        alloc,
        flat,
        graph,
        twins.as_slice(),
        None,
        flat.outputs.as_slice(),
    )?;
    Ok(Parts {
        list,
        table,
        values,
        outputs,
    })
}

/// The codelets of a statement list, whose graph is `graph`: its classes and twins, by level and then by least statement
/// number.
pub fn condense(alloc: Global, flat: Flat, graph: &Graph) -> Result<Codelets, Memory>
    requires size { length graph.now ≡ length flat.lines }
    requires reach { IsReach (leads (length flat.fields) flat.lines) (length flat.lines) (cell graph.now) }
    ensures flat { IfOk result (λ c. c.flat ≡ flat) }
    ensures list { IfOk result (λ c. c.list ≡ codelets (cut_of flat)) }
    ensures lines { IfOk result (λ c. c.table ≡ lines_by_number (cut_of flat)) }
    ensures values { IfOk result (λ c. c.values ≡ holders (cut_of flat)) }
    ensures outputs { IfOk result (λ c. c.outputs ≡ map (outer (cut_of flat)) flat.outputs) }
    ensures laws { CodeletLaws (linked_of flat) }
{
    codelets_hold(&flat);
    let Parts {
        list,
        table,
        values,
        outputs,
    } = parts_of(alloc, &flat, graph)?;
    Ok(Codelets {
        flat,
        list,
        table,
        values,
        outputs,
    })
}

impl Codelets {
    /// The codelets in their order.
    pub fn list(&self) -> &[Codelet]
        ensures same { result.now ≡ self.now.list }
        ensures codelets { result.now ≡ codelets (cut_of self.now.flat) }
    {
        self.list.as_slice()
    }

    /// The statement with a number. The twin of statement j has the number n + j, where there are n statements. A statement
    /// outside a class names the class's twins in its operands.
    pub fn line(&self, number: u32) -> Option<&Line>
        ensures same { MatchOption result (line_in self.now.table number ≡ None) (λ l. line_in self.now.table number ≡ Some l.now) }
        ensures line { MatchOption result (line_of (cut_of self.now.flat) number ≡ None) (λ l. line_of (cut_of self.now.flat) number ≡ Some l.now) }
    {
        line_at(&self.table, number)
    }

    /// The container of a value, where it has one: a field's is its number, then come the values that codelets export.
    pub fn container(&self, value: u32) -> Option<u32>
        ensures same { result ≡ place_if self.now.values value }
        ensures container { result ≡ container (cut_of self.now.flat) value }
    {
        if is_in(self.values.as_slice(), value) {
            Some(place_of(self.values.as_slice(), value))
        } else {
            None
        }
    }

    /// The number of containers.
    pub fn containers(&self) -> u32
        ensures same { result ≡ length self.now.values }
        ensures containers { result ≡ containers (cut_of self.now.flat) }
    {
        self.values.len() as u32
    }

    /// The statement list.
    pub fn flat(&self) -> &Flat
        ensures { result.now ≡ self.now.flat }
    {
        &self.flat
    }

    /// The outputs, with twins put in.
    pub fn outputs(&self) -> &Operands
        ensures same { result.now ≡ self.now.outputs }
        ensures outputs { result.now ≡ map (outer (cut_of self.now.flat)) self.now.flat.outputs }
    {
        &self.outputs
    }
}
