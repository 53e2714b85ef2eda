//! The lists that the passes make of worked programs.

use crate::tests::passes::{items_of, list_of, names_of, steps_of};
use crate::tests::programs::program;
use crate::tests::rows::{parts, put_times};
use dom_words::read_count;
use std::alloc::Global;
use std::test::Fail;
use three_address::flatten;

pub(crate) const ROWS: &str =
    "sampler|steps => [Step { target: Fresh(0), value: Chain { first: State { array: 0, index: Word(0) }, rest: Seq { items: [(Eq, Number(29))] } } }, Step { target: Field(0), value: Cond { test: Fresh(0), yes: Number(1), no: Field(0) } }, Step { target: State { array: 0, index: Word(0) }, value: Cond { test: Fresh(0), yes: Number(0), no: State { array: 0, index: Word(0) } } }, Step { target: Field(0), value: Cond { test: Fresh(0), yes: Field(0), no: Number(0) } }, Step { target: State { array: 0, index: Word(0) }, value: Cond { test: Fresh(0), yes: State { array: 0, index: Word(0) }, no: Chain { first: State { array: 0, index: Word(0) }, rest: Seq { items: [(Add, Number(1))] } } } }]
guards|steps => [Step { target: Fresh(0), value: Chain { first: Field(0), rest: Seq { items: [(Eq, Number(0))] } } }, Step { target: Fresh(1), value: Chain { first: Field(0), rest: Seq { items: [(Eq, Number(0))] } } }, Step { target: State { array: 0, index: Word(0) }, value: Cond { test: Fresh(0), yes: Chain { first: State { array: 0, index: Word(0) }, rest: Seq { items: [(Add, Field(1))] } }, no: State { array: 0, index: Word(0) } } }, Step { target: Field(0), value: Cond { test: Fresh(0), yes: Number(1), no: Field(0) } }, Step { target: State { array: 1, index: Word(0) }, value: Cond { test: Fresh(1), yes: Chain { first: State { array: 1, index: Word(0) }, rest: Seq { items: [(Add, Number(1))] } }, no: State { array: 1, index: Word(0) } } }]
sampler|items => [Read { array: 0, index: Word(0) }, Set(Step { target: Fresh(0), value: Chain { first: State { array: 0, index: Word(0) }, rest: Seq { items: [(Eq, Number(29))] } } }), Set(Step { target: Field(0), value: Cond { test: Fresh(0), yes: Number(1), no: Field(0) } }), Set(Step { target: State { array: 0, index: Word(0) }, value: Cond { test: Fresh(0), yes: Number(0), no: State { array: 0, index: Word(0) } } }), Set(Step { target: Field(0), value: Cond { test: Fresh(0), yes: Field(0), no: Number(0) } }), Set(Step { target: State { array: 0, index: Word(0) }, value: Cond { test: Fresh(0), yes: State { array: 0, index: Word(0) }, no: Chain { first: State { array: 0, index: Word(0) }, rest: Seq { items: [(Add, Number(1))] } } } }), Write { array: 0, index: Word(0) }]
sampler|lines => [Fetch { array: 0, index: Const(0) }, Bin { op: Eq, a: Value(1), b: Const(29) }, Cond { c: Value(2), a: Const(1), b: Value(0) }, Cond { c: Value(2), a: Const(0), b: Value(1) }, Cond { c: Value(2), a: Value(3), b: Const(0) }, Bin { op: Add, a: Value(4), b: Const(1) }, Cond { c: Value(2), a: Value(4), b: Value(6) }, Store { array: 0, index: Const(0), value: Value(7) }]
sampler|outputs => [Value(5)]
flowlet|lines => [Hash { unit: HashName { args: 3, letter: 0 }, modulus: 10, args: Seq { items: [Value(0), Value(1), Value(2)] } }, Hash { unit: HashName { args: 2, letter: 0 }, modulus: 8000, args: Seq { items: [Value(0), Value(1)] } }, Fetch { array: 0, index: Value(7) }, Bin { op: Sub, a: Value(2), b: Value(8) }, Bin { op: Gt, a: Value(9), b: Const(5) }, Fetch { array: 1, index: Value(7) }, Cond { c: Value(10), a: Value(6), b: Value(11) }, Store { array: 0, index: Value(7), value: Value(2) }, Store { array: 1, index: Value(7), value: Value(12) }]
flowlet|outputs => [Value(0), Value(1), Value(2), Value(6), Value(12), Value(7)]
guards|lines => [Bin { op: Eq, a: Value(0), b: Const(0) }, Bin { op: Eq, a: Value(0), b: Const(0) }, Fetch { array: 0, index: Const(0) }, Bin { op: Add, a: Value(4), b: Value(1) }, Cond { c: Value(2), a: Value(5), b: Value(4) }, Cond { c: Value(2), a: Const(1), b: Value(0) }, Fetch { array: 1, index: Const(0) }, Bin { op: Add, a: Value(8), b: Const(1) }, Cond { c: Value(3), a: Value(9), b: Value(8) }, Store { array: 0, index: Const(0), value: Value(6) }, Store { array: 1, index: Const(0), value: Value(10) }]
guards|outputs => [Value(7), Value(1)]
modulo|lines => [Hash { unit: HashName { args: 1, letter: 0 }, modulus: 10, args: Seq { items: [Value(1)] } }, Bin { op: Mul, a: Value(2), b: Const(2) }]
modulo|outputs => [Const(10), Value(3)]
remainders|lines => [Hash { unit: HashName { args: 1, letter: 0 }, modulus: 0, args: Seq { items: [Value(0)] } }, Bin { op: Rem, a: Value(2), b: Const(4294967295) }, Hash { unit: HashName { args: 1, letter: 0 }, modulus: 0, args: Seq { items: [Value(1)] } }, Bin { op: Add, a: Const(5), b: Const(5) }, Bin { op: Rem, a: Value(4), b: Value(5) }]
remainders|outputs => [Value(3), Value(6)]";

// So many sums, and how many statements they make.
pub(crate) const SUMS: &str = "510 => 512
511 => TooManyStatements(513)";

// The statements or the outputs of a text.
fn flat_told(alloc: Global, what: &str, text: &str) -> Result<String, Fail> {
    let flat = list_of(alloc, text)?;
    let shown = if what == "lines" {
        format!(in alloc; "{:?}", flat.lines.as_slice())
    } else {
        format!(in alloc; "{:?}", flat.outputs.as_slice())
    };
    Ok(shown?)
}

// One of the lists of a text.
fn list_told(alloc: Global, what: &str, text: &str) -> Result<String, Fail> {
    if what == "steps" {
        Ok(format!(in alloc; "{:?}", steps_of(alloc, text)?.steps.as_slice())?)
    } else if what == "items" {
        Ok(format!(in alloc; "{:?}", items_of(alloc, text)?.items.as_slice())?)
    } else {
        flat_told(alloc, what, text)
    }
}

// What a row asks of a program: the program and one of its lists.
pub(crate) fn told(alloc: Global, asked: &str) -> Result<String, Fail> {
    let (name, what) = parts(asked);
    let text = program(alloc, name)?;
    list_told(alloc, what, text.as_str())
}

// A program of so many sums.
fn sums(alloc: Global, count: u32) -> Result<String, Fail> {
    let mut body = String::new(alloc);
    put_times(&mut body, "a = a + 1; ", count)?;
    program(alloc, body.as_str())
}

// How many statements it has, or needs.
pub(crate) fn told_sums(alloc: Global, asked: &str) -> Result<String, Fail> {
    let count = read_count(asked.as_bytes()).unwrap_or(0);
    let names = names_of(alloc, sums(alloc, count)?.as_str())?;
    let shown = match flatten(alloc, names) {
        Ok(flat) => format!(in alloc; "{}", flat.lines.len()),
        Err(fault) => format!(in alloc; "{fault:?}"),
    };
    Ok(shown?)
}
