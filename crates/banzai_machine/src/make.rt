ghost use Rattle.std.specs.Prelude.{◌≡◌, ◌≤◌, ◌||◌, [], ◌++◌, nat_lt, length, replicate, IfOk, OnOk, false};
ghost use Rattle.dom_words.specs.State.{started};
ghost use Rattle.banzai_machine.specs.Busy.{busy_from, noted};

use atom_traits::AtomTemplate;
use banzai_config::{Config, FitAtoms, OpAtoms};
use dom_words::{ArrayList, Memory, Packet, Seq};
use std::alloc::Global;

// So many flags that are not set.
pub(crate) fn flags(alloc: Global, count: usize) -> Result<Vec<bool>, Memory>
    ensures { IfOk result (λ v. v.items ≡ replicate count false) }
{
    match vec![in alloc; false; count] {
        Ok(flags) => Ok(flags),
        Err(_) => Err(Memory),
    }
}

// So many words that are 0.
pub(crate) fn zeros(alloc: Global, count: usize) -> Result<Vec<u32>, Memory>
    ensures { IfOk result (λ v. v.items ≡ replicate count 0) }
{
    match vec![in alloc; 0; count] {
        Ok(words) => Ok(words),
        Err(_) => Err(Memory),
    }
}

/// The arrays with the words that they start with.
pub fn arrays(alloc: Global, declared: &ArrayList) -> Result<Vec<Packet>, Memory>
    ensures { IfOk result (λ v. v.items ≡ started declared.now) }
{
    let mut arrays = Seq::new(alloc);
    for array in declared.as_slice() {
        let words = Packet::filled(alloc, array.length as usize, array.init)?;
        arrays.push(words)?;
    }
    Ok(arrays.into_vec())
}

// Whether a stage with these atoms has any.
fn has_atoms<T: AtomTemplate>(stateless: &OpAtoms, stateful: &FitAtoms<T>) -> bool
    ensures { result ≡ (nat_lt 0 (length stateless.now) || nat_lt 0 (length stateful.now)) }
{
    0 < stateless.len() || 0 < stateful.len()
}

// Puts a number at the end, if it is to be noted.
fn note(all: &mut Vec<usize>, number: usize, is_noted: bool) -> Result<(), Memory>
    ensures { OnOk result (all.new.items ≡ all.old.items ++ noted is_noted number []) }
{
    if is_noted {
        all.push(number).map_err(|_| Memory)?;
    }
    Ok(())
}

// The numbers of the stages that have atoms, counted from 0.
pub(crate) fn busy<T: AtomTemplate>(alloc: Global, config: &Config<T>) -> Result<Vec<usize>, Memory>
    requires { length config.now.stages ≤ 65535 }
    ensures { IfOk result (λ v. v.items ≡ busy_from 0 config.now.stages) }
{
    let mut all = Vec::new(alloc);
    for k in 0..config.stages() {
        let number = k as u32 + 1;
        let has = has_atoms::<T>(config.stateless(number), config.stateful(number));
        note(&mut all, k, has)?;
    }
    Ok(all)
}
