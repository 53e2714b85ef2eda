ghost use Rattle.std.specs.Prelude.{◌≡◌, ◌≤◌, List, ℕ, take, vec_len, IfOk, IfSome};
ghost use Rattle.std.specs.declared.option.Option.{Option};
ghost use Rattle.dom_io.specs.Reads.{ReadCause};

/// Why a file was not read.
#[derive(Clone, Copy, Debug, PartialEq, Eq)]
pub enum ShelfFault {
    /// A fault of the shelf, which its count tells.
    Failed,
    /// Want of memory.
    Memory,
}

/// Files by name. No call changes what the names hold.
pub trait Shelf {
    /// The bytes of a name, where the shelf tells them.
    ghost content: { Self → List ℕ → Option (List ℕ) };

    /// How often reading a name has failed. It never falls.
    ghost faults: { Self → List ℕ → ℕ };

    /// The first `most` bytes of the named file, or all where it is shorter. `Failed` comes only where the count of this
    /// name rose in this call; every other answer leaves all counts as they were.
    fn read(&mut self, name: &str, most: usize) -> Result<Vec<u8>, ShelfFault>
        ensures bytes { IfOk result (λ v. IfSome (content self.old name.now) (λ bytes. v.items ≡ take most bytes)) }
        ensures few { IfOk result (λ v. vec_len v ≤ most) }
        ensures files { (n : List ℕ) → content self.new n ≡ content self.old n }
        ensures cause { ReadCause (faults self.old) (faults self.new) name.now result };
}
