use codelets::Kind;
use dom_words::Seq;

/// The least statement numbers of codelets of which each uses the one before it.
pub type Chain = Seq<u32>;

/// Why codelets have no stages.
#[derive(Debug, Drop)]
pub enum PlanFault {
    /// The greatest level is over the depth: of the chains with as many codelets, the one that is first in dictionary order.
    TooDeep(Chain),
    /// A codelet finds no place: the least number of its statements, and a stage that is full.
    Full {
        codelet: u32,
        kind: Kind,
        stage: u32,
    },
    /// Want of memory.
    Memory,
}
