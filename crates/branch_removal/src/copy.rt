//! Copies.

ghost use Rattle.std.specs.Prelude.{◌≡◌, IfOk, map, true};
ghost use Rattle.dom_words.specs.State.{fits_word, start_with_words};
ghost use Rattle.dom_ast.specs.Resolved.{form, forms};

use dom_ast::{Part, PartList};
use dom_words::{Array, ArrayList, Memory, Name, Seq};
use std::alloc::Global;

pub(crate) fn boxed(alloc: Global, part: Part) -> Result<Box<Part>, Memory>
    ensures { IfOk result (λ b. b.value ≡ part) }
{
    match Box::new(alloc, part) {
        Ok(part) => Ok(part),
        Err(_) => Err(Memory),
    }
}

/// A copy of an expression.
#[cycle(copy)]
pub(crate) fn copy(alloc: Global, part: &Part) -> Result<Part, Memory>
    ensures { IfOk result (λ p. form p ≡ form part.now) }
{
    match part {
        Part::Number(word) => Ok(Part::Number(*word)),
        Part::Field(field) => Ok(Part::Field(*field)),
        Part::State { array, index } => Ok(Part::State {
            array: *array,
            index: *index,
        }),
        Part::Fresh(fresh) => Ok(Part::Fresh(*fresh)),
        Part::Made(made) => Ok(Part::Made(*made)),
        Part::Call { unit, args } => Ok(Part::Call {
            unit: *unit,
            args: copy_all(alloc, args.as_slice())?,
        }),
        Part::Un { op, arg } => Ok(Part::Un {
            op: *op,
            arg: boxed(alloc, copy(alloc, arg)?)?,
        }),
        Part::Chain { first, rest } => {
            let first = boxed(alloc, copy(alloc, first)?)?;
            let mut ops = Seq::new(alloc);
            for (op, part) in rest.as_slice() {
                ops.push((*op, copy(alloc, part)?))?;
            }
            Ok(Part::Chain { first, rest: ops })
        }
        Part::Cond { test, yes, no } => {
            let test = boxed(alloc, copy(alloc, test)?)?;
            let yes = boxed(alloc, copy(alloc, yes)?)?;
            let no = boxed(alloc, copy(alloc, no)?)?;
            Ok(Part::Cond { test, yes, no })
        }
    }
}

#[cycle(copy)]
fn copy_all(alloc: Global, parts: &[Part]) -> Result<PartList, Memory>
    ensures { IfOk result (λ s. forms s ≡ forms parts.now) }
{
    let mut all = Seq::new(alloc);
    for part in parts {
        all.push(copy(alloc, part)?)?;
    }
    Ok(all)
}

/// A copy of an array.
fn copy_array(alloc: Global, array: &Array) -> Result<Array, Memory>
    ensures same { IfOk result (λ a. a ≡ array.now) }
    ensures word { IfOk result (λ a. fits_word a.init ≡ true) }
{
    Ok(Array {
        name: Name::of(alloc, array.name.as_bytes())?,
        length: array.length,
        init: first_word(array.init),
    })
}

// What an array starts with, which is a word.
fn first_word(init: u32) -> u32
    ensures same { result ≡ init }
    ensures word { fits_word result ≡ true }
{
    init
}

/// A copy of arrays.
pub(crate) fn copy_arrays(alloc: Global, arrays: &[Array]) -> Result<ArrayList, Memory>
    ensures same { IfOk result (λ s. s ≡ arrays.now) }
    ensures words { IfOk result (λ s. start_with_words s ≡ true) }
{
    let mut all = Seq::new(alloc);
    for array in arrays {
        all.push(copy_array(alloc, array)?)?;
    }
    Ok(all)
}
