ghost use Rattle.std.specs.Prelude.{◌≡◌, ◌≤◌, ℕ, List, take, vec_len, if◌then◌else◌, IfOk, IfErr, IfSome};
ghost use Rattle.std.specs.Option.{option_copied};
ghost use Rattle.dom_io.specs.Files.{ReadAnswer, file_of, read_fails};
ghost use Rattle.dom_io.specs.Reads.{ReadCause};
ghost use Rattle.dom_io.specs.Causes.{next_number};

use crate::shelf::{Shelf, ShelfFault};
use dom_words::{FileList, Name};
use std::alloc::Global;

/// Files in memory, whose reads fail by a list of their numbers, from 1. It tells its files. A read also fails where the
/// name is not there. Its one count, that of every name, rises by one at each failed read.
#[derive(Drop)]
pub struct MemShelf {
    alloc: Global,
    files: FileList,
    failing: Vec<u64>,
    reads: u64,
    faults: u64,
}

impl MemShelf {
    /// A shelf of these files, of which the first of a name counts; the reads with these numbers fail. Takes no memory.
    pub fn new(alloc: Global, files: FileList, failing: Vec<u64>) -> MemShelf
        ensures files { result.files ≡ files }
        ensures failing { result.failing ≡ failing }
        ensures reads { result.reads ≡ 0 }
        ensures faults { result.faults ≡ 0 }
    {
        MemShelf {
            alloc,
            files,
            failing,
            reads: 0,
            faults: 0,
        }
    }
}

impl Shelf for MemShelf {
    ghost content = { λ s name. file_of s.files name };

    ghost faults = { λ s _. s.faults };

    fn read(&mut self, name: &str, most: usize) -> Result<Vec<u8>, ShelfFault>
        ensures bytes { IfOk result (λ v. IfSome (file_of self.old.files name.now) (λ bytes. v.items ≡ take most bytes)) }
        ensures few { IfOk result (λ v. vec_len v ≤ most) }
        ensures files { (n : List ℕ) → file_of self.new.files n ≡ file_of self.old.files n }
        ensures cause { ReadCause (λ (_ : List ℕ). self.old.faults) (λ (_ : List ℕ). self.new.faults) name.now result }
        ensures number { self.new.reads ≡ next_number self.old.reads }
        ensures failing { self.new.failing ≡ self.old.failing }
        ensures count { self.new.faults ≡ (if read_fails self.old.files self.old.failing.items (next_number self.old.reads) name.now then next_number self.old.faults else self.old.faults) }
        ensures exact { ReadAnswer (read_fails self.old.files self.old.failing.items (next_number self.old.reads) name.now) result }
    {
        self.reads = self.reads.saturating_add(1);
        match find(&self.files, name.as_bytes()) {
            Some(bytes) if !self.failing.contains(&self.reads) => first(self.alloc, bytes, most),
            _ => {
                self.faults = self.faults.saturating_add(1);
                Err(ShelfFault::Failed)
            }
        }
    }
}

// The first bytes, as many as are wanted and there.
pub(crate) fn first(alloc: Global, bytes: &[u8], most: usize) -> Result<Vec<u8>, ShelfFault>
    ensures ok { IfOk result (λ v. v.items ≡ take most bytes.now) }
    ensures few { IfOk result (λ v. vec_len v ≤ most) }
    ensures err { IfErr result (λ e. e ≡ ShelfFault.Memory) }
{
    let count = bytes.len().min(most);
    Vec::from_slice(alloc, &bytes[..count]).map_err(|_| ShelfFault::Memory)
}

// The bytes of the first file of the name.
pub(crate) fn find<'a>(files: &'a FileList, name: &[u8]) -> Option<&'a [u8]>
    ensures { option_copied result ≡ file_of files.now name.now }
{
    for k in 0..files.len() {
        let (file, bytes) = files.get(k);
        if file.as_bytes() == name {
            return Some(bytes.as_slice());
        }
    }
    None
}
