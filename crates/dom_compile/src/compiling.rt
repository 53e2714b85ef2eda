ghost use Rattle.std.specs.Prelude.{◌≡◌, ◌≤◌, IfErr, IfOk, Ok, length, map, true};
ghost use Rattle.atom_match.specs.Atoms.{atom_form};
ghost use Rattle.banzai_config.specs.Checked.{shape_with};
ghost use Rattle.banzai_config.specs.Legal.{are_names, name_of_array};
ghost use Rattle.compile_law.specs.Compiled.{AreAtomsOf};
ghost use Rattle.dom_compile.specs.Answer.{IsCompileAnswer, IsCompileFault, IsFitted, IsFrontFault};
ghost use Rattle.dom_compile.specs.Compiled.{IsCause, IsCompiled};
ghost use Rattle.dom_compile.specs.InOrder.{IsFront};

use crate::faults::CompileFault;
use crate::passes::statements;
use atom_match::{Atoms, match_all};
use atom_traits::AtomTemplate;
use banzai_config::Config;
use codelets::{Codelets, condense};
use compile_parts::configured;
use container_plan::share;
use dep_graph::Graph;
use stage_plan::plan;
use std::alloc::Global;

/// The configuration of the program that a text of at most 65,536 bytes spells, for a target with `DEPTH` stages of at most
/// `SL` atoms without and `SF` atoms with state, and with multipliers where `MUL` holds; or the first cause why there is
/// none. The configuration is legal for the target, its values share containers, and it does to packets and state what the
/// program does (docs/ARCHITECTURE.md, "The way of a program").
pub fn compile<
    T: AtomTemplate,
    const DEPTH: usize,
    const SL: usize,
    const SF: usize,
    const MUL: bool,
>(alloc: Global, text: &[u8]) -> Result<Config<T>, CompileFault>
    requires text { length text.now ≤ 65536 }
    requires depth { (1 ≤ DEPTH) × (DEPTH ≤ 65535) }
    requires stateless { (1 ≤ SL) × (SL ≤ 65535) }
    requires stateful { (1 ≤ SF) × (SF ≤ 65535) }
    ensures config { IfOk result (λ c. IsCompileAnswer (shape_with T.fits T.CONST_BITS DEPTH SL SF MUL) text.now (Ok c)) }
    ensures refused { IfErr result (λ fault. IsCompileFault (shape_with T.fits T.CONST_BITS DEPTH SL SF MUL) text.now fault) }
{
    let (codelets, atoms) = front::<T, MUL>(alloc, text)?;
    let stages = plan::<DEPTH, SL, SF>(alloc, &codelets)?;
    let config = configured::<T, DEPTH, SL, SF, MUL>(alloc, &codelets, &atoms, &stages)?;
    Ok(share::<T, DEPTH, SL, SF, MUL>(alloc, config)?)
}

/// The codelets of the program that a text of at most 65,536 bytes spells, with their atoms; or the first cause why they have
/// none: the refusals of `compile` up to `Outside`, in the same order. The program has at most 512 statements, and the
/// codelets, done in their order, make of each packet and state what its transactions do (docs/ARCHITECTURE.md, "The way of a
/// program").
pub fn front<T: AtomTemplate, const MUL: bool>(
    alloc: Global,
    text: &[u8],
) -> Result<(Codelets, Atoms<T>), CompileFault>
    requires { length text.now ≤ 65536 }
    ensures fitted { IfOk result (λ found. IsFitted T.fits MUL text.now found.0) }
    ensures atoms { IfOk result (λ found. AreAtomsOf found.0 (map (atom_form T.trees_of) found.1.list)) }
    ensures program { IfOk result (λ found. IsFront text.now found.0 (map (atom_form T.trees_of) found.1.list)) }
    ensures fields { IfOk result (λ found. are_names found.0.flat.fields ≡ true) }
    ensures arrays { IfOk result (λ found. are_names (map name_of_array found.0.flat.arrays) ≡ true) }
    ensures refused { IfErr result (λ fault. IsFrontFault T.fits MUL text.now fault) }
{
    let codelets = cut(alloc, text)?;
    let atoms = match_all::<T, MUL>(alloc, &codelets)?;
    Ok((codelets, atoms))
}

/// The codelets of the program that a text spells.
fn cut(alloc: Global, text: &[u8]) -> Result<Codelets, CompileFault>
    requires { length text.now ≤ 65536 }
    ensures list { IfOk result (λ codelets. IsCompiled text.now codelets.flat) }
    ensures refused { IfErr result (λ fault. IsCause text.now fault) }
{
    let flat = statements(alloc, text)?;
    let graph = Graph::of(alloc, &flat)?;
    Ok(condense(alloc, flat, &graph)?)
}
