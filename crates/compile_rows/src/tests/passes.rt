//! The passes in a row, from a text to its codelets.

ghost use Rattle.std.specs.Prelude.{◌≡◌, ◌<◌, ◌^◌, IfOk, map};
ghost use Rattle.dom_ast.specs.Flanks.{flank_form, flanks_nodes};
ghost use Rattle.dom_ast.specs.Named.{named_form, named_nodes};
ghost use Rattle.dom_ast.specs.Resolved.{form};
ghost use Rattle.dom_ast.specs.Straight.{step_form, steps_nodes};

use branch_removal::remove;
use codelets::{Codelets, condense};
use dep_graph::Graph;
use dom_ast::{Flanked, Named, Straight};
use dom_checks::check;
use dom_flat::Flat;
use dom_lexer::lex;
use dom_parser::parse;
use ssa_names::name;
use state_flanks::flank;
use std::alloc::Global;
use std::test::Fail;
use three_address::flatten;

// The steps of a text without branches.
pub(crate) fn steps_of(alloc: Global, text: &str) -> Result<Straight, Fail>
    ensures few { IfOk result (λ s. steps_nodes (map step_form s.steps) < 2 ^ 22) }
{
    let bytes = text.as_bytes();
    if bytes.len() > 65_536 {
        return Ok(Err("the text is too long")?);
    }
    let tokens = lex(alloc, bytes)?;
    let program = parse(alloc, &tokens)?;
    let program = check(alloc, program)?;
    Ok(remove(alloc, &program)?)
}

// The same between flanks.
pub(crate) fn items_of(alloc: Global, text: &str) -> Result<Flanked, Fail>
    ensures few { IfOk result (λ f. flanks_nodes (map flank_form f.items) < 2 ^ 23) }
{
    let steps = steps_of(alloc, text)?;
    Ok(flank(alloc, steps)?)
}

// The same with one name for each value.
pub(crate) fn names_of(alloc: Global, text: &str) -> Result<Named, Fail>
    ensures few { IfOk result (λ n. named_nodes (map named_form n.items) (map form n.outputs) < 2 ^ 25) }
{
    let items = items_of(alloc, text)?;
    Ok(name(alloc, items)?)
}

// The statement list of a text.
pub(crate) fn list_of(alloc: Global, text: &str) -> Result<Flat, Fail> {
    let names = names_of(alloc, text)?;
    Ok(flatten(alloc, names)?)
}

// The codelets of a text.
pub(crate) fn codelets_of(alloc: Global, text: &str) -> Result<Codelets, Fail> {
    let flat = list_of(alloc, text)?;
    let graph = Graph::of(alloc, &flat)?;
    Ok(condense(alloc, flat, &graph)?)
}
