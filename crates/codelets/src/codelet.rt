use dom_flat::Operand;
use dom_words::{Numbers, Seq};

/// What a codelet works on: words alone, or the state of arrays too.
#[derive(Clone, Copy, Debug, PartialEq, Eq)]
pub enum Kind {
    Stateless,
    Stateful,
}

/// An array of a stateful codelet: the index of its flanks, and the containers of the old word and of the written word where
/// another codelet or an output uses them. The index may be a value of the codelet's own, as where an array is indexed by a
/// word of another array of its class.
#[derive(Clone, Copy, Debug, PartialEq, Eq)]
pub struct Slot {
    pub array: u32,
    pub index: Operand,
    pub old: Option<u32>,
    pub new: Option<u32>,
}

/// The slots of a codelet, by array.
pub type SlotList = Seq<Slot>;

/// Statements that one atom has to do in one cycle: a class, or a twin.
#[derive(Debug, Drop)]
pub struct Codelet {
    /// Its least statement number.
    pub first: u32,
    /// 1 more than the greatest level of the codelets that it uses.
    pub level: u32,
    pub kind: Kind,
    /// Its statement numbers.
    pub lines: Numbers,
    /// The positions of the codelets that it uses, each once and rising.
    pub uses: Numbers,
    pub slots: SlotList,
}
