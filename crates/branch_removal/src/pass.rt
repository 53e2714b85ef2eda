ghost use Rattle.std.specs.Prelude.{◌≡◌, ◌<◌, ◌≤◌, ◌+◌, ◌^◌, IfOk, map, true, ⊤};
ghost use Rattle.dom_words.specs.State.{AgreeUnder};
ghost use Rattle.dom_ast.specs.Meaning.{one_packet};
ghost use Rattle.dom_ast.specs.PartSize.{bodies_nested, bodies_nodes};
ghost use Rattle.dom_ast.specs.Resolved.{bodies_form};
ghost use Rattle.dom_ast.specs.Straight.{step_form, steps_nodes, straight_outcome};
ghost use Rattle.branch_removal.specs.Branches.{given_names, guards, ifs, numbers, straight};

use crate::copy::copy_arrays;
use crate::transactions::steps_of;
use dom_ast::{Checked, Straight};
use dom_words::Memory;
use std::alloc::Global;

/// The program as a list of steps without branches: first one step for each guard, which gives its word to a fresh name,
/// and then the steps of the transactions, in the order of the text. An `if` is a step that gives its condition's word to a
/// fresh name, and then the steps of both of its branches, each a conditional move: `x = fresh ? value : x` in the first
/// branch, `x = fresh ? x : value` in the second. A guard is the condition of an `if` around its transaction. Fresh names
/// are numbered from 0 in the order of their steps (Sivaraman et al., "Packet Transactions", SIGCOMM 2016, "Branch removal").
pub fn remove(alloc: Global, program: &Checked) -> Result<Straight, Memory>
    requires size { bodies_nodes (bodies_form program.now.bodies) ≤ 16384 }
    requires nested { bodies_nested 64 (bodies_form program.now.bodies) ≡ true }
    ensures list { IfOk result (λ s. map step_form s.steps ≡ straight (bodies_form program.now.bodies)) }
    ensures fresh { IfOk result (λ s. s.fresh ≡ guards (bodies_form program.now.bodies) + ifs (bodies_form program.now.bodies)) }
    ensures names { IfOk result (λ s. given_names (map step_form s.steps) ≡ numbers 0 s.fresh) }
    ensures fields { IfOk result (λ s. s.fields ≡ program.now.fields) }
    ensures arrays { IfOk result (λ s. s.arrays ≡ program.now.arrays) }
    ensures means { IfOk result (λ s. AgreeUnder (λ hash packet state. ⊤) (λ hash. straight_outcome hash (map step_form s.steps)) (λ hash. one_packet hash (bodies_form program.now.bodies))) }
    ensures few { IfOk result (λ s. steps_nodes (map step_form s.steps) < 2 ^ 22) }
{
    let fields = program.fields().copy(alloc)?;
    let arrays = copy_arrays(alloc, program.arrays().as_slice())?;
    let (steps, fresh) = steps_of(alloc, program.bodies())?;
    Ok(Straight {
        fields,
        arrays,
        fresh,
        steps,
    })
}
