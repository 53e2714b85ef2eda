ghost use Rattle.std.specs.Prelude.{◌≡◌, ℕ, ◌≤◌, ◌<◌, ◌^◌, IfOk, OnOk, slice_index};
ghost use Rattle.banzai_config.specs.Checked.{shape_with};
ghost use Rattle.banzai_config.specs.Legal.{LegalFor, Shape};
ghost use Rattle.banzai_config.specs.Parts.{PartsForm, parts_form};
ghost use Rattle.banzai_config.specs.declared.parts.Version.TheVariants.{One};
ghost use Rattle.container_plan.specs.Shared.{shared, shared_by};

use crate::laws::shared_is_legal;
use crate::naming::named_parts;
use crate::spans::plan;
use atom_traits::AtomTemplate;
use banzai_config::{Config, ConfigFault, Parts, Version};
use dom_words::Memory;
use std::alloc::{AllocError, Global};

// The same numbers, which are words.
fn narrowed(alloc: Global, numbers: &[usize]) -> Result<Vec<u32>, AllocError>
    requires { (v : ℕ) → slice_index numbers.now v < 2 ^ 32 }
    ensures { IfOk result (λ words. words.items ≡ numbers.now) }
{
    let mut words = Vec::new(alloc);
    for k in 0..numbers.len() {
        words.push(numbers[k] as u32)?;
    }
    Ok(words)
}

// The parts with shared containers. They were legal for a target of this template, and of version one.
fn shared_parts<
    T: AtomTemplate,
    const DEPTH: usize,
    const SL: usize,
    const SF: usize,
    const MUL: bool,
>(alloc: Global, parts: Parts) -> Result<Parts, Memory>
    requires depth { DEPTH ≤ 65535 }
    requires legal { LegalFor (shape_with T.fits T.CONST_BITS DEPTH SL SF MUL) (parts_form parts) }
    requires version { parts.version ≡ One }
    ensures { IfOk result (λ new. parts_form new ≡ shared (parts_form parts)) }
{
    let Ok(plan) = plan(alloc, &parts) else {
        return Err(Memory);
    };
    let Ok(names) = narrowed(alloc, &plan.names) else {
        return Err(Memory);
    };
    let containers = plan.containers as u32;
    named_parts(alloc, &names, containers, parts)
}

/// The configuration whose values share containers, which is legal for the same numbers and does the same. One of version
/// two comes back as it is.
pub fn share<
    T: AtomTemplate,
    const DEPTH: usize,
    const SL: usize,
    const SF: usize,
    const MUL: bool,
>(alloc: Global, config: Config<T>) -> Result<Config<T>, Memory>
    requires depth { (1 ≤ DEPTH) × (DEPTH ≤ 65535) }
    requires stateless { (1 ≤ SL) × (SL ≤ 65535) }
    requires stateful { (1 ≤ SF) × (SF ≤ 65535) }
    requires legal { LegalFor (shape_with T.fits T.CONST_BITS DEPTH SL SF MUL) config }
    ensures parts { IfOk result (λ c. c ≡ shared_by config.version config) }
    ensures legal { OnOk result (LegalFor (shape_with T.fits T.CONST_BITS DEPTH SL SF MUL) (shared_by config.version config)) }
{
    match config.version() {
        Version::Two => Ok(config),
        Version::One => {
            shared_is_legal::<T>();
            let parts = config.parts(alloc)?;
            let parts = shared_parts::<T, DEPTH, SL, SF, MUL>(alloc, parts)?;
            match Config::<T>::checked::<DEPTH, SL, SF, MUL>(alloc, parts) {
                Ok(config) => Ok(config),
                Err(ConfigFault::Memory) => Err(Memory),
                Err(ConfigFault::Refused { .. }) => unreachable!(),
            }
        }
    }
}
