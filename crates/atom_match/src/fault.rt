/// Why some codelets have no atoms.
#[derive(Clone, Copy, Debug, PartialEq, Eq)]
pub enum MatchFault {
    /// The least statement number of the first codelet in order that does not fit.
    Outside(u32),
    Memory,
}
