/// Why there is no statement list.
#[derive(Clone, Copy, Debug, PartialEq, Eq)]
pub enum FlatFault {
    /// The number of needed statements, which is over 512.
    TooManyStatements(u32),
    /// Want of memory.
    Memory,
}
