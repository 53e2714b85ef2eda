ghost use Rattle.std.specs.Prelude.{◌≡◌, replicate, IfOk};

use crate::mark::Mark;
use dom_words::{Memory, Seq};
use std::alloc::Global;

// The marks of so many empty queues.
pub(crate) fn marks(alloc: Global, count: usize) -> Result<Vec<Mark>, Memory>
    ensures { IfOk result (λ v. v.items ≡ replicate count (record { start = 0; count = 0 })) }
{
    let mut all = Seq::new(alloc);
    for _i in 0..count {
        all.push(Mark { start: 0, count: 0 })?;
    }
    Ok(all.into_vec())
}

// So many words that are 0.
pub(crate) fn zeros(alloc: Global, count: usize) -> Result<Vec<u32>, Memory>
    ensures { IfOk result (λ v. v.items ≡ replicate count 0) }
{
    match vec![in alloc; 0; count] {
        Ok(words) => Ok(words),
        Err(_) => Err(Memory),
    }
}
