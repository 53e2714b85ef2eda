//! The codelets of whole programs: their statements, levels, uses, slots, containers and outputs.

use crate::tests::passes::codelets_of;
use crate::tests::programs::program;
use crate::tests::rows::parts;
use codelets::Codelets;
use dom_words::read_count;
use std::alloc::{AllocError, Global};
use std::test::Fail;

pub(crate) const ROWS: &str =
    "flowlet|codelets => [Codelet { first: 0, level: 1, kind: Stateless, lines: Seq { items: [0] }, uses: Seq { items: [] }, slots: Seq { items: [] } }, Codelet { first: 1, level: 1, kind: Stateless, lines: Seq { items: [1] }, uses: Seq { items: [] }, slots: Seq { items: [] } }, Codelet { first: 2, level: 2, kind: Stateful, lines: Seq { items: [2, 7] }, uses: Seq { items: [1] }, slots: Seq { items: [Slot { array: 0, index: Value(7), old: Some(8), new: None }] } }, Codelet { first: 3, level: 3, kind: Stateless, lines: Seq { items: [3] }, uses: Seq { items: [2] }, slots: Seq { items: [] } }, Codelet { first: 4, level: 4, kind: Stateless, lines: Seq { items: [4] }, uses: Seq { items: [3] }, slots: Seq { items: [] } }, Codelet { first: 5, level: 5, kind: Stateful, lines: Seq { items: [5, 6, 8] }, uses: Seq { items: [0, 1, 4] }, slots: Seq { items: [Slot { array: 1, index: Value(7), old: None, new: Some(11) }] } }]
flowlet|outputs => [Value(0), Value(1), Value(2), Value(6), Value(12), Value(7)]
flowlet|containers => 12
sampler|codelets => [Codelet { first: 0, level: 1, kind: Stateful, lines: Seq { items: [0, 1, 3, 5, 6, 7] }, uses: Seq { items: [] }, slots: Seq { items: [Slot { array: 0, index: Const(0), old: Some(1), new: None }] } }, Codelet { first: 9, level: 2, kind: Stateless, lines: Seq { items: [9] }, uses: Seq { items: [0] }, slots: Seq { items: [] } }, Codelet { first: 2, level: 3, kind: Stateless, lines: Seq { items: [2] }, uses: Seq { items: [1] }, slots: Seq { items: [] } }, Codelet { first: 4, level: 4, kind: Stateless, lines: Seq { items: [4] }, uses: Seq { items: [1, 2] }, slots: Seq { items: [] } }]
sampler|outputs => [Value(5)]
sampler|containers => 5
conga|codelets => [Codelet { first: 0, level: 1, kind: Stateful, lines: Seq { items: [0, 1, 2, 3, 4, 5, 6, 7, 8, 9] }, uses: Seq { items: [] }, slots: Seq { items: [Slot { array: 0, index: Value(0), old: None, new: None }, Slot { array: 1, index: Value(0), old: None, new: None }] } }]
conga|outputs => [Value(0), Value(1), Value(2)]
conga|containers => 3
rot|codelets => [Codelet { first: 0, level: 1, kind: Stateful, lines: Seq { items: [0, 1, 2, 3, 4, 5] }, uses: Seq { items: [] }, slots: Seq { items: [Slot { array: 0, index: Const(0), old: Some(1), new: None }, Slot { array: 1, index: Const(0), old: None, new: None }, Slot { array: 2, index: Const(0), old: None, new: None }] } }]
rot|outputs => [Value(1)]
rot|containers => 2
twins|codelets => [Codelet { first: 0, level: 1, kind: Stateful, lines: Seq { items: [0, 1, 2, 3, 5, 6] }, uses: Seq { items: [] }, slots: Seq { items: [Slot { array: 0, index: Const(0), old: Some(2), new: None }] } }, Codelet { first: 8, level: 2, kind: Stateless, lines: Seq { items: [8] }, uses: Seq { items: [0] }, slots: Seq { items: [] } }, Codelet { first: 9, level: 3, kind: Stateless, lines: Seq { items: [9] }, uses: Seq { items: [1] }, slots: Seq { items: [] } }, Codelet { first: 10, level: 4, kind: Stateless, lines: Seq { items: [10] }, uses: Seq { items: [2] }, slots: Seq { items: [] } }, Codelet { first: 4, level: 5, kind: Stateless, lines: Seq { items: [4] }, uses: Seq { items: [3] }, slots: Seq { items: [] } }]
twins|outputs => [Value(0), Value(6)]
twins|containers => 7
pair|codelets => [Codelet { first: 0, level: 1, kind: Stateful, lines: Seq { items: [0, 1, 2, 3, 4] }, uses: Seq { items: [] }, slots: Seq { items: [Slot { array: 0, index: Value(0), old: None, new: Some(3) }, Slot { array: 1, index: Value(1), old: None, new: None }] } }]
pair|outputs => [Value(0), Value(1), Value(5)]
pair|containers => 4
guards|codelets => [Codelet { first: 0, level: 1, kind: Stateless, lines: Seq { items: [0] }, uses: Seq { items: [] }, slots: Seq { items: [] } }, Codelet { first: 1, level: 1, kind: Stateless, lines: Seq { items: [1] }, uses: Seq { items: [] }, slots: Seq { items: [] } }, Codelet { first: 2, level: 2, kind: Stateful, lines: Seq { items: [2, 3, 4, 9] }, uses: Seq { items: [0] }, slots: Seq { items: [Slot { array: 0, index: Const(0), old: None, new: None }] } }, Codelet { first: 5, level: 2, kind: Stateless, lines: Seq { items: [5] }, uses: Seq { items: [0] }, slots: Seq { items: [] } }, Codelet { first: 6, level: 2, kind: Stateful, lines: Seq { items: [6, 7, 8, 10] }, uses: Seq { items: [1] }, slots: Seq { items: [Slot { array: 1, index: Const(0), old: None, new: None }] } }]
guards|outputs => [Value(7), Value(1)]
guards|containers => 5
levels|codelets => [Codelet { first: 0, level: 1, kind: Stateful, lines: Seq { items: [0, 1, 2, 3, 7, 8, 10] }, uses: Seq { items: [] }, slots: Seq { items: [Slot { array: 0, index: Const(0), old: Some(3), new: None }] } }, Codelet { first: 13, level: 2, kind: Stateless, lines: Seq { items: [13] }, uses: Seq { items: [0] }, slots: Seq { items: [] } }, Codelet { first: 4, level: 3, kind: Stateful, lines: Seq { items: [4, 5, 6, 11] }, uses: Seq { items: [1] }, slots: Seq { items: [Slot { array: 1, index: Const(0), old: None, new: Some(5) }] } }, Codelet { first: 9, level: 4, kind: Stateless, lines: Seq { items: [9] }, uses: Seq { items: [1, 2] }, slots: Seq { items: [] } }]
levels|outputs => [Value(0), Value(1), Value(12)]
levels|containers => 7
inside|codelets => [Codelet { first: 0, level: 1, kind: Stateful, lines: Seq { items: [0, 1, 2, 3, 4] }, uses: Seq { items: [] }, slots: Seq { items: [Slot { array: 0, index: Const(0), old: Some(1), new: None }, Slot { array: 1, index: Value(1), old: None, new: None }] } }]
inside|outputs => [Value(1)]
inside|containers => 2
sampler|line|9 => Some(Bin { op: Eq, a: Value(1), b: Const(29) })
twins|line|8 => Some(Bin { op: Add, a: Value(2), b: Value(0) })
twins|line|9 => Some(Bin { op: Mul, a: Value(10), b: Const(3) })
twins|line|10 => Some(Bin { op: Sub, a: Value(11), b: Const(1) })
levels|line|13 => Some(Bin { op: Gt, a: Value(3), b: Value(0) })
sampler|line|2 => Some(Cond { c: Value(10), a: Const(1), b: Value(0) })
sampler|line|3 => Some(Cond { c: Value(2), a: Const(0), b: Value(1) })
sampler|line|8 => None
sampler|line|16 => None
sampler|container|0 => Some(0)
sampler|container|1 => Some(1)
sampler|container|2 => None
sampler|container|10 => Some(2)
sampler|container|7 => None";

// What codelets tell, and of which number.
fn shown(
    alloc: Global,
    codelets: &Codelets,
    what: &str,
    number: u32,
) -> Result<String, AllocError> {
    if what == "codelets" {
        format!(in alloc; "{:?}", codelets.list())
    } else if what == "outputs" {
        format!(in alloc; "{:?}", codelets.outputs().as_slice())
    } else if what == "containers" {
        format!(in alloc; "{}", codelets.containers())
    } else if what == "line" {
        format!(in alloc; "{:?}", codelets.line(number))
    } else {
        format!(in alloc; "{:?}", codelets.container(number))
    }
}

// What a row asks of a program's codelets: the program, what, and of which number.
pub(crate) fn told(alloc: Global, asked: &str) -> Result<String, Fail> {
    let (name, rest) = parts(asked);
    let (what, number) = parts(rest);
    let number = read_count(number.as_bytes()).unwrap_or(0);
    let codelets = codelets_of(alloc, program(alloc, name)?.as_str())?;
    Ok(shown(alloc, &codelets, what, number)?)
}
