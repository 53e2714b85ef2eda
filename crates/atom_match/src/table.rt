ghost use Rattle.std.specs.Prelude.{◌≡◌, ◌∷◌, IfOk, length};
ghost use Rattle.dom_flat.specs.declared.line.Line.TheVariants as statement;
ghost use Rattle.atom_match.specs.Classes.{class_of, container_of, is_some_value};
ghost use Rattle.atom_match.specs.Rules.{line_found, operand_found};
ghost use Rattle.atom_match.specs.Resolve.{found_operand};
ghost use Rattle.atom_match.specs.Table.{IsEarlier, IsTable, entry_of, looked, next_entry};

use crate::class::{View, container, fields_of, is_member};
use crate::found::{Answer, Fact, Found};
use crate::rules::{find_bin, find_cond, find_un, found_with, nothing};
use atom_traits::{Leaf, Port};
use codelets::{Codelet, Codelets};
use dom_flat::{Line, Operand};
use std::alloc::{AllocError, Global};

fn is_other(view: View, value: u32) -> bool
    ensures { result ≡ is_some_value view.other value }
{
    match view.other {
        None => false,
        Some(other) => value == other,
    }
}

// What a table has of a value.
fn entry(fields: u32, table: &[Option<Found>], value: u32) -> Option<Found>
    ensures { result ≡ entry_of fields table.now value }
{
    if value < fields {
        None
    } else {
        match table.get((value - fields) as usize) {
            Some(found) => *found,
            None => None,
        }
    }
}

fn look(
    codelets: &Codelets,
    view: View,
    facts: &[Fact],
    table: &[Option<Found>],
    value: u32,
) -> Found
    ensures { result ≡ looked (length codelets.now.flat.fields) (container_of codelets.now.values) view facts.now table.now value }
{
    if value == view.read {
        return found_with(view.state, facts, Answer::Is(Leaf::Keep));
    }
    if is_other(view, value) {
        return found_with(view.state, facts, Answer::Other);
    }
    match entry(fields_of(codelets), table, value) {
        Some(found) => found,
        None => {
            let at = container(codelets, value);
            found_with(
                view.state,
                facts,
                Answer::Is(Leaf::Put(Port::Container(at))),
            )
        }
    }
}

fn look_operand(
    codelets: &Codelets,
    view: View,
    facts: &[Fact],
    table: &[Option<Found>],
    operand: Operand,
) -> Found
    ensures { result ≡ operand_found view.state facts.now (λ u. looked (length codelets.now.flat.fields) (container_of codelets.now.values) view facts.now table.now u) operand }
{
    match operand {
        Operand::Const(word) => {
            found_with(view.state, facts, Answer::Is(Leaf::Put(Port::Const(word))))
        }
        Operand::Value(value) => look(codelets, view, facts, table, value),
    }
}

fn choose(
    codelets: &Codelets,
    view: View,
    facts: &[Fact],
    table: &[Option<Found>],
    c: Operand,
    a: Operand,
    b: Operand,
) -> Found
    ensures { result ≡ line_found view.state facts.now (λ u. looked (length codelets.now.flat.fields) (container_of codelets.now.values) view facts.now table.now u) (statement.Cond c a b) }
{
    let c = look_operand(codelets, view, facts, table, c);
    let a = look_operand(codelets, view, facts, table, a);
    let b = look_operand(codelets, view, facts, table, b);
    find_cond(view.state, facts, c, a, b)
}

fn find(
    codelets: &Codelets,
    view: View,
    facts: &[Fact],
    table: &[Option<Found>],
    line: &Line,
) -> Found
    ensures { result ≡ line_found view.state facts.now (λ u. looked (length codelets.now.flat.fields) (container_of codelets.now.values) view facts.now table.now u) line.now }
{
    match line {
        Line::Fetch { .. } | Line::Store { .. } | Line::Hash { .. } => nothing(),
        Line::Un { op, a } => find_un(*op, look_operand(codelets, view, facts, table, *a)),
        Line::Bin { op, a, b } => {
            let a = look_operand(codelets, view, facts, table, *a);
            let b = look_operand(codelets, view, facts, table, *b);
            find_bin(view.state, facts, *op, a, b)
        }
        Line::Cond { c, a, b } => choose(codelets, view, facts, table, *c, *a, *b),
    }
}

// The entry of the next statement.
fn next(
    codelets: &Codelets,
    codelet: &Codelet,
    view: View,
    facts: &[Fact],
    table: &[Option<Found>],
    number: u32,
) -> Option<Found>
    ensures { result ≡ next_entry (class_of codelets.now codelet.now) view facts.now table.now number }
{
    if !is_member(codelet.lines.as_slice(), number) {
        return None;
    }
    match codelets.line(number) {
        Some(line) => Some(find(codelets, view, facts, table, line)),
        None => Some(nothing()),
    }
}

// What is found of each statement under facts.
fn fill(
    alloc: Global,
    codelets: &Codelets,
    codelet: &Codelet,
    view: View,
    facts: &[Fact],
) -> Result<Vec<Option<Found>>, AllocError>
    requires { IsEarlier (class_of codelets.now codelet.now) (length codelets.now.flat.lines) }
    ensures { IfOk result (λ t. IsTable (class_of codelets.now codelet.now) view facts.now (length codelets.now.flat.lines) t.items) }
{
    let mut table = Vec::new(alloc);
    let count = codelets.flat().lines.len();
    for number in 0..count {
        let found = next(codelets, codelet, view, facts, &table, number as u32);
        table.push(found)?;
    }
    Ok(table)
}

/// One more fact.
pub(crate) fn with_fact(alloc: Global, fact: Fact, facts: &[Fact]) -> Result<Vec<Fact>, AllocError>
    ensures { IfOk result (λ v. v.items ≡ fact ∷ facts.now) }
{
    let mut all = Vec::new(alloc);
    all.push(fact)?;
    all.extend_from_slice(facts)?;
    Ok(all)
}

/// What is found of an operand under facts.
pub(crate) fn answer_of(
    alloc: Global,
    codelets: &Codelets,
    codelet: &Codelet,
    view: View,
    facts: &[Fact],
    operand: Operand,
) -> Result<Answer, AllocError>
    requires { IsEarlier (class_of codelets.now codelet.now) (length codelets.now.flat.lines) }
    ensures { IfOk result (λ a. a ≡ (found_operand (class_of codelets.now codelet.now) view facts.now operand).answer) }
{
    let table = fill(alloc, codelets, codelet, view, facts)?;
    let found = look_operand(codelets, view, facts, &table, operand);
    Ok(found.answer)
}
