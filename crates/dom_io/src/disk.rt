ghost use Rattle.std.specs.Prelude.{◌≡◌, ◌≤◌, List, ℕ, take, vec_len, if◌then◌else◌, IfOk, IfErr, IfSome};
ghost use Rattle.std.specs.Io.KnownBytes.{Consumes};
ghost use Rattle.dom_io.specs.Causes.{next_number};
ghost use Rattle.dom_io.specs.Files.{is_failure, untold};
ghost use Rattle.dom_io.specs.Reads.{ReadCause};

use crate::shelf::{Shelf, ShelfFault};
use std::alloc::Global;
use std::fs;
use std::io::Read;
use std::rt::Files;

const BUFFER_BYTES: usize = 16384;

/// Reads real files through the runtime. It tells no content. Its one count, that of every name, rises by one at each
/// refused open or read, up to the greatest u64.
#[derive(Drop)]
pub struct DiskShelf<'a, R: Files> {
    rt: &'a R,
    alloc: Global,
    faults: u64,
}

impl<'a, R: Files> DiskShelf<'a, R> {
    /// A shelf of the runtime's files, with the count 0.
    pub fn new(rt: &'a R, alloc: Global) -> DiskShelf<'a, R>
        ensures { result.faults ≡ 0 }
    {
        DiskShelf {
            rt,
            alloc,
            faults: 0,
        }
    }
}

impl<'a, R: Files> Shelf for DiskShelf<'a, R> {
    ghost content = { λ _ name. untold name };

    ghost faults = { λ s _. s.faults };

    fn read(&mut self, name: &str, most: usize) -> Result<Vec<u8>, ShelfFault>
        ensures bytes { IfOk result (λ v. IfSome (untold name.now) (λ bytes. v.items ≡ take most bytes)) }
        ensures few { IfOk result (λ v. vec_len v ≤ most) }
        ensures files { (n : List ℕ) → untold n ≡ untold n }
        ensures cause { ReadCause (λ (_ : List ℕ). self.old.faults) (λ (_ : List ℕ). self.new.faults) name.now result }
        ensures count { IfErr result (λ fault. self.new.faults ≡ (if is_failure fault then next_number self.old.faults else self.old.faults)) }
    {
        let result = read_file(self.rt, self.alloc, name, most);
        if let Err(ShelfFault::Failed) = &result {
            self.faults = self.faults.saturating_add(1);
        }
        result
    }
}

// The first bytes of a file.
fn read_file<R: Files>(
    rt: &R,
    alloc: Global,
    name: &str,
    most: usize,
) -> Result<Vec<u8>, ShelfFault>
    ensures { IfOk result (λ v. vec_len v ≤ most) }
{
    let mut file = fs::open(rt, name).map_err(|_| ShelfFault::Failed)?;
    read_first(&mut file, alloc, most)
}

/// The first `most` bytes of a reader, or all that it has left where they are fewer, read piece by piece. The reader gives
/// no byte more than is answered. `Failed` where a read of the reader fails.
pub fn read_first<R: Read>(
    reader: &mut R,
    alloc: Global,
    most: usize,
) -> Result<Vec<u8>, ShelfFault>
    ensures few { IfOk result (λ v. vec_len v ≤ most) }
    ensures bytes { IfOk result (λ v. IfSome (R.remaining reader.old) (λ xs. v.items ≡ take most xs)) }
    ensures no_more { IfOk result (λ v. Consumes (R.remaining reader.old) (R.remaining reader.new) v.items) }
{
    let mut bytes = Vec::new(alloc);
    let mut buffer = [0; BUFFER_BYTES];
    while bytes.len() < most {
        let wanted = (most - bytes.len()).min(buffer.len());
        let count = reader
            .read(&mut buffer[..wanted])
            .map_err(|_| ShelfFault::Failed)?;
        if count == 0 {
            break;
        }
        bytes
            .extend_from_slice(&buffer[..count])
            .map_err(|_| ShelfFault::Memory)?;
    }
    Ok(bytes)
}
