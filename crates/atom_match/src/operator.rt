ghost use Rattle.std.specs.Prelude.{◌≡◌, IfOk, map};
ghost use Rattle.atom_match.specs.Classes.{container_of};
ghost use Rattle.atom_match.specs.Atoms.{codelet_operator, operator_of, port_of};

use crate::class::container;
use atom_traits::{Port, Ports, StatelessOp};
use codelets::{Codelet, Codelets};
use dom_flat::{Line, Operand};
use dom_words::Memory;
use std::alloc::Global;

/// An operand as an atom reads it: a word, or the container of a value.
pub fn port(codelets: &Codelets, operand: Operand) -> Port
    ensures { result ≡ port_of (container_of codelets.now.values) operand }
{
    match operand {
        Operand::Const(word) => Port::Const(word),
        Operand::Value(value) => Port::Container(container(codelets, value)),
    }
}

/// Operands as an atom reads them.
pub fn ports(alloc: Global, codelets: &Codelets, operands: &[Operand]) -> Result<Ports, Memory>
    ensures { IfOk result (λ p. p ≡ map (port_of (container_of codelets.now.values)) operands.now) }
{
    let mut ports = Ports::new(alloc);
    for operand in operands {
        ports.push(port(codelets, *operand))?;
    }
    Ok(ports)
}

// The operator of a statement; a flank has none.
fn operator(alloc: Global, codelets: &Codelets, line: &Line) -> Result<Option<StatelessOp>, Memory>
    ensures { IfOk result (λ o. o ≡ operator_of (container_of codelets.now.values) line.now) }
{
    match line {
        Line::Fetch { .. } | Line::Store { .. } => Ok(None),
        Line::Un { op, a } => Ok(Some(StatelessOp::Un {
            op: *op,
            a: port(codelets, *a),
        })),
        Line::Bin { op, a, b } => Ok(Some(StatelessOp::Bin {
            op: *op,
            a: port(codelets, *a),
            b: port(codelets, *b),
        })),
        Line::Cond { c, a, b } => Ok(Some(StatelessOp::Cond {
            c: port(codelets, *c),
            a: port(codelets, *a),
            b: port(codelets, *b),
        })),
        Line::Hash {
            unit,
            modulus,
            args,
        } => Ok(Some(StatelessOp::Hash {
            unit: *unit,
            modulus: *modulus,
            args: ports(alloc, codelets, args.as_slice())?,
        })),
    }
}

/// The operator of a codelet without state.
pub(crate) fn operator_of_codelet(
    alloc: Global,
    codelets: &Codelets,
    codelet: &Codelet,
) -> Result<Option<StatelessOp>, Memory>
    ensures { IfOk result (λ o. o ≡ codelet_operator codelets.now codelet.now) }
{
    match codelets.line(codelet.first) {
        Some(line) => operator(alloc, codelets, line),
        None => Ok(None),
    }
}
