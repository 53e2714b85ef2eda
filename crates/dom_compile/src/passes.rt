ghost use Rattle.std.specs.Prelude.{◌≡◌, ◌≤◌, ◌<◌, ◌^◌, length, map, true, IfErr, IfOk};
ghost use Rattle.dom_ast.specs.CheckedForm.{checked_form, has_one_struct};
ghost use Rattle.dom_ast.specs.Form.{program_form};
ghost use Rattle.dom_ast.specs.Named.{named_form, named_nodes, named_outcome};
ghost use Rattle.dom_ast.specs.PartSize.{bodies_nested, bodies_nodes};
ghost use Rattle.dom_ast.specs.Resolved.{bodies_form, form};
ghost use Rattle.dom_ast.specs.Size.{program_nested, program_nodes};
ghost use Rattle.ssa_names.specs.Naming.{outputs_of};
ghost use Rattle.dom_compile.specs.Compiled.{IsCause, IsCompiled, IsListed, IsTooLong, MeansProgram, naming_of};
ghost use Rattle.dom_compile.specs.Programs.{HasProgram, IsWellFormed};

use crate::faults::CompileFault;
use branch_removal::remove;
use dom_ast::{Checked, Named, Program};
use dom_checks::check;
use dom_flat::Flat;
use dom_lexer::lex;
use dom_parser::parse;
use dom_words::Memory;
use ssa_names::name;
use state_flanks::flank;
use std::alloc::Global;
use three_address::flatten;

/// The statement list of the program that a text of at most 65,536 bytes spells, or the first cause why it has none. The
/// statements do to a packet and a state what the program does (docs/ARCHITECTURE.md, "The way of a program").
pub(crate) fn statements(alloc: Global, text: &[u8]) -> Result<Flat, CompileFault>
    requires { length text.now ≤ 65536 }
    ensures list { IfOk result (λ flat. IsCompiled text.now flat) }
    ensures refused { IfErr result (λ fault. IsCause text.now fault) }
{
    let program = checked(alloc, text)?;
    listed(alloc, &program)
}

/// The tree that a text spells.
fn tree(alloc: Global, text: &[u8]) -> Result<Program, CompileFault>
    requires { length text.now ≤ 65536 }
    ensures tree { IfOk result (λ p. HasProgram text.now (program_form p)) }
    ensures nodes { IfOk result (λ p. program_nodes (program_form p) ≤ 16384) }
    ensures nested { IfOk result (λ p. program_nested 64 (program_form p) ≡ true) }
    ensures one_struct { IfOk result (λ p. has_one_struct (program_form p).heads ≡ true) }
    ensures refused { IfErr result (λ fault. IsCause text.now fault) }
{
    let tokens = lex(alloc, text)?;
    Ok(parse(alloc, &tokens)?)
}

/// The program that a text spells, where it is well formed, with its names resolved.
fn checked(alloc: Global, text: &[u8]) -> Result<Checked, CompileFault>
    requires { length text.now ≤ 65536 }
    ensures program { IfOk result (λ c. IsWellFormed text.now (checked_form c)) }
    ensures nodes { IfOk result (λ c. bodies_nodes (bodies_form c.bodies) ≤ 16384) }
    ensures nested { IfOk result (λ c. bodies_nested 64 (bodies_form c.bodies) ≡ true) }
    ensures refused { IfErr result (λ fault. IsCause text.now fault) }
{
    let program = tree(alloc, text)?;
    Ok(check(alloc, program)?)
}

/// A resolved program with one name for each value: three passes, each on what the one before it made.
fn named(alloc: Global, program: &Checked) -> Result<Named, Memory>
    requires size { bodies_nodes (bodies_form program.now.bodies) ≤ 16384 }
    requires nested { bodies_nested 64 (bodies_form program.now.bodies) ≡ true }
    ensures fields { IfOk result (λ n. n.fields ≡ program.now.fields) }
    ensures arrays { IfOk result (λ n. n.arrays ≡ program.now.arrays) }
    ensures items { IfOk result (λ n. map named_form n.items ≡ (naming_of (checked_form program.now)).items) }
    ensures outputs { IfOk result (λ n. map form n.outputs ≡ outputs_of (length program.now.fields) (naming_of (checked_form program.now))) }
    ensures means { IfOk result (λ n. MeansProgram (checked_form program.now) (λ hash packet state. named_outcome hash (map named_form n.items) (map form n.outputs) packet state)) }
    ensures few { IfOk result (λ n. named_nodes (map named_form n.items) (map form n.outputs) < 2 ^ 25) }
{
    let steps = remove(alloc, program)?;
    let items = flank(alloc, steps)?;
    name(alloc, items)
}

/// The statement list of a resolved program.
fn listed(alloc: Global, program: &Checked) -> Result<Flat, CompileFault>
    requires size { bodies_nodes (bodies_form program.now.bodies) ≤ 16384 }
    requires nested { bodies_nested 64 (bodies_form program.now.bodies) ≡ true }
    ensures list { IfOk result (λ flat. IsListed (checked_form program.now) flat) }
    ensures refused { IfErr result (λ fault. IsTooLong (checked_form program.now) fault) }
{
    let named = named(alloc, program)?;
    Ok(flatten(alloc, named)?)
}
