//! The trees of codelets, which templates take them, and which codelets have no stages.

use crate::tests::passes::codelets_of;
use crate::tests::programs::program;
use crate::tests::rows::parts;
use atom_match::trees;
use atom_traits::{
    AtomTemplate, Guard, IfElse, Leaf, Nested, Pairs, Port, Praw, Raw, Rel, Source, Sub, Tree,
    Trees, Write,
};
use codelets::{Codelets, Kind};
use dom_words::{read_count, signed};
use stage_plan::plan;
use std::alloc::Global;
use std::test::Fail;

// The trees of the codelet at a position, as the text of a configuration has them.
pub(crate) const TREES: &str = "0|sampler => if,eq,s0,#29,put,#0,add,#1
0|conga => if,lt,c1,s0,put,c1,if,eq,c2,s1,put,c1,keep and if,lt,c1,s0,put,c2,keep
2|flowlet => put,c2
5|flowlet => if,eq,c10,#0,keep,put,c6
0|rot => none
0|inside => none
0|pair => none
0|twins => none
2|guards => if,eq,c2,#0,keep,add,c1
4|guards => if,eq,c3,#0,keep,add,#1
0|levels => if,lt,c0,s0,add,#-1,add,#2
2|levels => if,eq,c4,#0,keep,add,c1
0|a = 3 + a; => add,#3
0|a = 3 - a; => none
0|a = a - p.x; => sub,c0
0|a = a - 3; => add,#-3
0|a = (a < 2 ? 3 : 4) + 5; => if,lt,s0,#2,put,#8,put,#9
0|a = (a < 2 ? 3 : 4) + p.x; => none
0|a = a * 2; => none
0|if (a <= p.x) { a = 0; } => if,lt,c0,s0,keep,put,#0
0|if (a > p.x) { a = 0; } => if,lt,c0,s0,put,#0,keep
0|if (a >= p.x) { a = 0; } => if,lt,s0,c0,keep,put,#0
0|if (a != p.x) { a = 0; } => if,eq,s0,c0,keep,put,#0
0|if (a) { a = 0; } => if,eq,s0,#0,keep,put,#0
0|if (!(a < 3)) { a = 0; } => if,lt,s0,#3,keep,put,#0
1|if (a < 3 && p.x < 2) { a = 0; } => if,lt,s0,#3,if,eq,c5,#0,keep,put,#0,keep
1|if (a < 3 || p.x < 2) { a = 0; } => if,lt,s0,#3,put,#0,if,eq,c5,#0,keep,put,#0
0|if (a < 3) { a = 0; } else { a = a < 3 ? 1 : a; } => if,lt,s0,#3,put,#0,keep
0|a = 1 ? 2 : a; => if,eq,#1,#0,keep,put,#2
0|a = a < 1 ? 0 : (a < 2 ? 1 : a); => if,lt,s0,#1,put,#0,if,lt,s0,#2,put,#1,keep
0|a = a < 1 ? 0 : (a < 2 ? 1 : (a < 3 ? 2 : a)); => none
0|p.x = a; a = b; b = p.x; => none";

// The templates with so many bits of constants that take the trees of the codelet at a position.
pub(crate) const TAKERS: &str = "0|5|a = p.x; => write raw praw ifelse sub nested pairs
0|5|a = a + p.x; => raw praw ifelse sub nested pairs
1|5|if (p.x < 3) { a = a + 1; } => praw ifelse sub nested pairs
1|5|a = p.x < 3 ? a + 1 : 0; => ifelse sub nested pairs
0|5|a = a - p.x; => sub nested pairs
2|5|a = p.x < 3 ? a + 1 : (p.y < 3 ? 0 : a); => nested pairs
0|5|if (p.x < a) { a = p.x; b = p.y; } else { if (p.y == b) { a = p.x; } } => pairs
0|5|p.x = a; a = b; b = p.x; => none
0|5|a = a + 15; => raw praw ifelse sub nested pairs
0|5|a = a + 16; => nothing
0|5|a = a - 16; => raw praw ifelse sub nested pairs
0|5|a = a - 17; => nothing
0|16|a = a + 16; => raw praw ifelse sub nested pairs
0|5|a = 15; => write raw praw ifelse sub nested pairs
0|5|a = 16; => nothing
0|16|a = a + 32767; => raw praw ifelse sub nested pairs
0|16|a = a + 32768; => nothing
0|16|a = a - 32768; => raw praw ifelse sub nested pairs
0|16|a = a - 32769; => nothing
0|5|if (a < 16) { a = 0; } => nothing
0|5|if (a < 15) { a = 0; } => praw ifelse sub nested pairs
0|5|sampler => nothing
0|16|sampler => ifelse sub nested pairs
0|5|conga => pairs
2|5|flowlet => write raw praw ifelse sub nested pairs
5|5|flowlet => praw ifelse sub nested pairs";

// Why the codelets have no stages on a pipeline of 4 stages with 4 atoms without and one with state each.
pub(crate) const PLANS: &str = "sampler => planned
flowlet => TooDeep(Seq { items: [1, 2, 3, 4, 5] })
a = a + 1; b = b + 1; c = c + 1; d = d + 1; => planned
a = a + 1; b = b + 1; c = c + 1; d = d + 1; e = e + 1; => Full { codelet: 8, kind: Stateful, stage: 1 }
a = a + 1; b = b + p.x; p.y = b ^ 1 ^ 2 ^ 3; => Full { codelet: 6, kind: Stateful, stage: 1 }";

fn port_text(alloc: Global, port: Port) -> Result<String, Fail> {
    let shown = match port {
        Port::Const(word) => format!(in alloc; "#{}", signed(word)),
        Port::Container(at) => format!(in alloc; "c{at}"),
    };
    Ok(shown?)
}

fn source_text(alloc: Global, source: Source) -> Result<String, Fail> {
    match source {
        Source::Const(word) => port_text(alloc, Port::Const(word)),
        Source::Container(at) => port_text(alloc, Port::Container(at)),
        Source::State(number) => Ok(format!(in alloc; "s{number}")?),
    }
}

fn guard_text(alloc: Global, guard: Guard) -> Result<String, Fail> {
    let left = source_text(alloc, guard.left)?;
    let right = source_text(alloc, guard.right)?;
    let rel = match guard.rel {
        Rel::Lt => "lt",
        Rel::Eq => "eq",
    };
    Ok(format!(in alloc; "{rel},{left},{right}")?)
}

fn leaf_with(alloc: Global, word: &str, port: Port) -> Result<String, Fail> {
    let port = port_text(alloc, port)?;
    Ok(format!(in alloc; "{word},{port}")?)
}

fn leaf_text(alloc: Global, leaf: Leaf) -> Result<String, Fail> {
    match leaf {
        Leaf::Keep => Ok(String::from_str(alloc, "keep")?),
        Leaf::Put(port) => leaf_with(alloc, "put", port),
        Leaf::Add(port) => leaf_with(alloc, "add", port),
        Leaf::Sub(port) => leaf_with(alloc, "sub", port),
    }
}

fn tree_text(alloc: Global, tree: &Tree) -> Result<String, Fail> {
    match tree {
        Tree::Leaf(leaf) => leaf_text(alloc, *leaf),
        Tree::Fork { guard, yes, no } => {
            let guard = guard_text(alloc, *guard)?;
            let yes = tree_text(alloc, yes)?;
            let no = tree_text(alloc, no)?;
            Ok(format!(in alloc; "if,{guard},{yes},{no}")?)
        }
    }
}

fn trees_text(alloc: Global, trees: &Trees) -> Result<String, Fail> {
    let first = tree_text(alloc, &trees.first)?;
    match &trees.second {
        None => Ok(first),
        Some(second) => {
            let second = tree_text(alloc, second)?;
            Ok(format!(in alloc; "{first} and {second}")?)
        }
    }
}

// The trees of the codelet at a position, if it has state.
fn trees_at(alloc: Global, codelets: &Codelets, which: usize) -> Result<Option<Trees>, Fail> {
    match codelets.list().get(which) {
        Some(codelet) if codelet.kind == Kind::Stateful => Ok(trees(alloc, codelets, which)?),
        _ => Ok(Err("no codelet with state")?),
    }
}

// The trees that a row asks for: the position of a codelet, and the program.
fn trees_of(alloc: Global, name: &str, which: &str) -> Result<Option<Trees>, Fail> {
    let codelets = codelets_of(alloc, program(alloc, name)?.as_str())?;
    let which = read_count(which.as_bytes()).unwrap_or(0);
    trees_at(alloc, &codelets, which as usize)
}

pub(crate) fn told(alloc: Global, asked: &str) -> Result<String, Fail> {
    let (which, name) = parts(asked);
    match trees_of(alloc, name, which)? {
        Some(trees) => trees_text(alloc, &trees),
        None => Ok(String::from_str(alloc, "none")?),
    }
}

// Puts the name of a template at the end, where it takes the trees.
fn put_taker<T: AtomTemplate>(
    alloc: Global,
    name: &str,
    trees: &Trees,
    text: &mut String,
) -> Result<(), Fail> {
    if T::fit(alloc, trees)?.is_some() {
        if !text.is_empty() {
            text.push_str(" ")?;
        }
        text.push_str(name)?;
    }
    Ok(())
}

// The templates that take the trees.
fn takers<const K: u32>(alloc: Global, trees: &Trees) -> Result<String, Fail> {
    let mut text = String::new(alloc);
    put_taker::<Write<K>>(alloc, "write", trees, &mut text)?;
    put_taker::<Raw<K>>(alloc, "raw", trees, &mut text)?;
    put_taker::<Praw<K>>(alloc, "praw", trees, &mut text)?;
    put_taker::<IfElse<K>>(alloc, "ifelse", trees, &mut text)?;
    put_taker::<Sub<K>>(alloc, "sub", trees, &mut text)?;
    put_taker::<Nested<K>>(alloc, "nested", trees, &mut text)?;
    put_taker::<Pairs<K>>(alloc, "pairs", trees, &mut text)?;
    if text.is_empty() {
        text.push_str("nothing")?;
    }
    Ok(text)
}

pub(crate) fn told_takers(alloc: Global, asked: &str) -> Result<String, Fail> {
    let (which, rest) = parts(asked);
    let (bits, name) = parts(rest);
    match trees_of(alloc, name, which)? {
        Some(trees) if bits == "5" => takers::<5>(alloc, &trees),
        Some(trees) => takers::<16>(alloc, &trees),
        None => Ok(String::from_str(alloc, "none")?),
    }
}

pub(crate) fn told_plan(alloc: Global, asked: &str) -> Result<String, Fail> {
    let codelets = codelets_of(alloc, program(alloc, asked)?.as_str())?;
    let shown = match plan::<4, 4, 1>(alloc, &codelets) {
        Ok(_) => String::from_str(alloc, "planned"),
        Err(fault) => format!(in alloc; "{fault:?}"),
    };
    Ok(shown?)
}
