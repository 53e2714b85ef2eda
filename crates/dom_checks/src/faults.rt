use dom_words::Memory;

/// Why a program is not well formed (docs/LANGUAGE.md, "Checks"). Each variant has an offset in the text.
#[derive(Clone, Copy, Debug, PartialEq, Eq)]
pub enum CheckFault {
    /// The name is declared before.
    Twice(u32),
    /// The name is not declared, or is no field.
    UnknownName(u32),
    /// The name stands for something that may not stand here.
    ShapeOfName(u32),
    /// The index is no number, no define and no packet field.
    BadIndex(u32),
    /// The array was mentioned before with another index.
    TwoIndexes(u32),
    /// The field is the index of an array that was mentioned before.
    IndexAssignedLater(u32),
    /// The hash has not as many arguments as its name says.
    HashArgs(u32),
    /// There is more of something than fits a machine.
    TooLarge(Limit, u32),
    /// Want of memory.
    Memory,
}

/// What there is too much of.
#[derive(Clone, Copy, Debug, PartialEq, Eq)]
pub enum Limit {
    /// Packet fields: 64 at most.
    Fields,
    /// Arrays, scalars counted: 32 at most.
    Arrays,
    /// Words of one array: 1 to 1,048,576.
    Length,
    /// Words of all arrays: 1,048,576 at most.
    Words,
}

impl From<Memory> for CheckFault {
    ghost use Rattle.std.specs.Prelude.{◌≡◌};
    ghost use Rattle.dom_checks.specs.declared.faults.CheckFault.TheVariants as fault;

    ghost from_gives = { λ _ f. f ≡ fault.Memory };

    fn from(_memory: Memory) -> Self {
        CheckFault::Memory
    }
}
