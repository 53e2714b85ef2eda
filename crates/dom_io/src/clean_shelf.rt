ghost use Rattle.std.specs.Prelude.{◌≡◌, ◌≤◌, ℕ, List, Some, take, vec_len, IfOk, IfErr, IfSome};
ghost use Rattle.dom_io.specs.Files.{bytes_under};
ghost use Rattle.dom_io.specs.Reads.{ReadCause};

use crate::mem_shelf::{find, first};
use crate::shelf::{Shelf, ShelfFault};
use dom_words::FileList;
use std::alloc::Global;

/// Files in memory whose reads never fail: a name that is not there has no bytes. It tells its files. Its count is 0 for
/// every name, and stays so.
#[derive(Drop)]
pub struct CleanShelf {
    alloc: Global,
    files: FileList,
}

impl CleanShelf {
    /// A shelf of these files, of which the first of a name counts. Takes no memory.
    pub fn new(alloc: Global, files: FileList) -> CleanShelf
        ensures { result.files ≡ files }
    {
        CleanShelf { alloc, files }
    }
}

impl Shelf for CleanShelf {
    ghost content = { λ s name. Some (bytes_under s.files name) };

    ghost faults = { λ _ _. 0 };

    fn read(&mut self, name: &str, most: usize) -> Result<Vec<u8>, ShelfFault>
        ensures bytes { IfOk result (λ v. IfSome (Some (bytes_under self.old.files name.now)) (λ bytes. v.items ≡ take most bytes)) }
        ensures few { IfOk result (λ v. vec_len v ≤ most) }
        ensures files { (n : List ℕ) → Some (bytes_under self.new.files n) ≡ Some (bytes_under self.old.files n) }
        ensures cause { ReadCause (λ (_ : List ℕ). 0) (λ (_ : List ℕ). 0) name.now result }
        ensures never { IfErr result (λ fault. fault ≡ ShelfFault.Memory) }
    {
        match find(&self.files, name.as_bytes()) {
            Some(bytes) => first(self.alloc, bytes, most),
            None => Ok(Vec::new(self.alloc)),
        }
    }
}
