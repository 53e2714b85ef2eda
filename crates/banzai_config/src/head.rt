ghost use Rattle.std.specs.Prelude.{◌≡◌, ◌≤◌, ◌++◌, [], ◌∷◌, nat_le, IfOk, Some, None, if◌then◌else◌, length, map, true};
ghost use Rattle.std.specs.List.{list_all};
ghost use Rattle.dom_words.specs.State.{state_words};
ghost use Rattle.banzai_config.specs.Legal.{are_counts_right, are_names, have_words, head_holds, is_fresh_name, length_of_array, name_of_array};
ghost use Rattle.banzai_config.specs.Parts.{parts_form};

use crate::parts::{NameList, Parts};
use dom_words::{Array, Memory, Name, Names, Seq, is_name};
use std::alloc::Global;

/// The fields of a configuration whose head breaks no rule; `None` where it breaks one.
pub(crate) fn head_fields(alloc: Global, parts: &Parts) -> Result<Option<Names>, Memory>
    ensures fields { IfOk result (λ o. o ≡ (if head_holds (parts_form parts.now) then Some parts.now.fields else None)) }
{
    if !are_numbers_right(parts) {
        return Ok(None);
    }
    let names = array_names(alloc, parts.arrays.as_slice())?;
    match distinct_names(alloc, names.as_slice())? {
        Some(_names) => {}
        None => return Ok(None),
    }
    let fields = distinct_names(alloc, parts.fields.as_slice())?;
    Ok(fields)
}

fn are_numbers_right(parts: &Parts) -> bool
    ensures { result ≡ are_counts_right (parts_form parts.now) }
{
    let fields = parts.fields.len();
    fields >= 1
        && fields <= 64
        && parts.arrays.len() <= 32
        && has_words(parts.arrays.as_slice())
        && fields <= parts.containers as usize
        && parts.containers <= 2048
}

fn has_words(arrays: &[Array]) -> bool
    requires { length arrays.now ≤ 32 }
    ensures { result ≡ have_words arrays.now }
{
    has_each_a_word(arrays) && word_count(arrays) <= 1048576
}

fn has_each_a_word(arrays: &[Array]) -> bool
    ensures { result ≡ list_all (λ a. nat_le 1 (length_of_array a)) arrays.now }
{
    arrays.iter().all(|array| array.length >= 1)
}

// The words of all arrays.
fn word_count(arrays: &[Array]) -> u64
    requires { length arrays.now ≤ 32 }
    ensures { result ≡ state_words arrays.now }
{
    let mut count = 0;
    for array in arrays {
        count += u64::from(array.length);
    }
    count
}

// The names of arrays, copied.
fn array_names(alloc: Global, arrays: &[Array]) -> Result<NameList, Memory>
    ensures { IfOk result (λ names. names ≡ map name_of_array arrays.now) }
{
    let mut names = Seq::new(alloc);
    for array in arrays {
        names.push(Name::of(alloc, array.name.as_bytes())?)?;
    }
    Ok(names)
}

// These names, where each is a name of the language and no two are the same.
fn distinct_names(alloc: Global, names: &[Name]) -> Result<Option<Names>, Memory>
    ensures { IfOk result (λ o. o ≡ (if are_names names.now then Some names.now else None)) }
{
    let mut found = Names::new(alloc);
    for k in 0..names.len() {
        let fresh = add_fresh(alloc, &names[k], &mut found)?;
        if !fresh {
            return Ok(None);
        }
    }
    Ok(Some(found))
}

// Adds a name of the language that is not there yet, and answers whether it is one.
fn add_fresh(alloc: Global, name: &Name, found: &mut Names) -> Result<bool, Memory>
    ensures fresh { IfOk result (λ fresh. fresh ≡ is_fresh_name (record { before = found.old; item = name.now })) }
    ensures added { IfOk result (λ fresh. fresh ≡ true → found.new ≡ found.old ++ name.now ∷ []) }
{
    if !is_name(name.as_bytes()) {
        return Ok(false);
    }
    let copy = Name::of(alloc, name.as_bytes())?;
    let new = found.add(copy)?;
    Ok(new)
}
