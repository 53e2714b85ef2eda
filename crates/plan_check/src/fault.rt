use codelets::Kind;

/// Why a text is no plan for codelets and a depth.
#[derive(Clone, Copy, Debug, PartialEq, Eq)]
pub enum PlanTextFault {
    /// The first line that is not right, counted from 1: a missing line, a further line and a rest without a line feed are
    /// not right either.
    Line(u32),
    /// Want of memory.
    Memory,
}

/// Why a plan is not lawful.
#[derive(Clone, Copy, Debug, PartialEq, Eq)]
pub enum HandFault {
    /// A codelet that is not at a later stage than one that it uses, both by their least statement numbers.
    Early { codelet: u32, used: u32 },
    /// A stage with more atoms of a kind than its width.
    Wide { stage: u32, kind: Kind },
}
