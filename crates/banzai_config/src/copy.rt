ghost use Rattle.std.specs.Prelude.{◌≡◌, IfOk};

use crate::parts::{NameList, OpAtom, OpAtoms, PartSlot, PartSlots};
use atom_traits::{Port, Ports, StatelessOp};
use dom_words::{Array, ArrayList, Memory, Name, Names, Seq};
use std::alloc::Global;

/// The same ports.
pub(crate) fn copy_ports(alloc: Global, ports: &[Port]) -> Result<Ports, Memory>
    ensures { IfOk result (λ copies. copies ≡ ports.now) }
{
    let mut copies = Seq::new(alloc);
    for port in ports {
        copies.push(*port)?;
    }
    Ok(copies)
}

/// The same operator.
pub fn copy_operation(alloc: Global, op: &StatelessOp) -> Result<StatelessOp, Memory>
    ensures { IfOk result (λ copy. copy ≡ op.now) }
{
    match op {
        StatelessOp::Un { op, a } => Ok(StatelessOp::Un { op: *op, a: *a }),
        StatelessOp::Bin { op, a, b } => Ok(StatelessOp::Bin {
            op: *op,
            a: *a,
            b: *b,
        }),
        StatelessOp::Cond { c, a, b } => Ok(StatelessOp::Cond {
            c: *c,
            a: *a,
            b: *b,
        }),
        StatelessOp::Hash {
            unit,
            modulus,
            args,
        } => Ok(StatelessOp::Hash {
            unit: *unit,
            modulus: *modulus,
            args: copy_ports(alloc, args.as_slice())?,
        }),
    }
}

/// The same atoms without state.
pub(crate) fn copy_ops(alloc: Global, atoms: &[OpAtom]) -> Result<OpAtoms, Memory>
    ensures { IfOk result (λ copies. copies ≡ atoms.now) }
{
    let mut copies = Seq::new(alloc);
    for atom in atoms {
        let op = copy_operation(alloc, &atom.op)?;
        copies.push(OpAtom { to: atom.to, op })?;
    }
    Ok(copies)
}

/// The same slots.
pub(crate) fn copy_slots(alloc: Global, slots: &[PartSlot]) -> Result<PartSlots, Memory>
    ensures { IfOk result (λ copies. copies ≡ slots.now) }
{
    let mut copies = Seq::new(alloc);
    for slot in slots {
        copies.push(*slot)?;
    }
    Ok(copies)
}

/// The same arrays.
pub fn copy_arrays(alloc: Global, arrays: &[Array]) -> Result<ArrayList, Memory>
    ensures { IfOk result (λ copies. copies ≡ arrays.now) }
{
    let mut copies = Seq::new(alloc);
    for array in arrays {
        let name = Name::of(alloc, array.name.as_bytes())?;
        copies.push(Array {
            name,
            length: array.length,
            init: array.init,
        })?;
    }
    Ok(copies)
}

/// The same names.
pub fn copy_names(alloc: Global, names: &Names) -> Result<NameList, Memory>
    ensures { IfOk result (λ copies. copies ≡ names.now) }
{
    let mut copies = Seq::new(alloc);
    for k in 0..names.len() {
        copies.push(Name::of(alloc, names.get(k))?)?;
    }
    Ok(copies)
}
