use atom_traits::{AtomTemplate, Port, Ports, StatelessOp, Trees};
use dom_words::{ArrayList, Name, Seq};

/// Whether values share containers. In version one each container is written once; in version two a later stage may write
/// it again.
#[derive(Clone, Copy, Debug, PartialEq, Eq)]
pub enum Version {
    One,
    Two,
}

/// Names that may repeat.
pub type NameList = Seq<Name>;

/// An atom without state: an operator, and the container that it writes.
#[derive(Debug, Drop)]
pub struct OpAtom {
    pub to: u32,
    pub op: StatelessOp,
}

/// The atoms without state of one stage.
pub type OpAtoms = Seq<OpAtom>;

/// An array of an atom: its number, where it is reached, and the containers that take the old word and the new word.
#[derive(Clone, Copy, Debug, PartialEq, Eq)]
pub struct PartSlot {
    pub array: u32,
    pub index: Port,
    pub old: Option<u32>,
    pub new: Option<u32>,
}

/// The slots of one atom: one or two where it is legal.
pub type PartSlots = Seq<PartSlot>;

/// An atom with state: its slots, and a tree for each of them.
#[derive(Drop)]
pub struct TreeAtom {
    pub slots: PartSlots,
    pub trees: Trees,
}

/// The atoms with state of one stage.
pub type TreeAtoms = Seq<TreeAtom>;

/// An atom with state that was fitted to a template: its slots, and the template's parameters.
#[derive(Drop)]
pub struct FitAtom<P: Drop> {
    pub slots: PartSlots,
    pub params: P,
}

/// The fitted atoms of one stage.
pub type FitAtoms<T> = Seq<FitAtom<<T as AtomTemplate>::Params>>;

/// The atoms of one stage: in the order of positions those without state first.
#[derive(Drop)]
pub struct StageParts {
    pub stateless: OpAtoms,
    pub stateful: TreeAtoms,
}

/// Stages in order, counted from 1.
pub type StageList = Seq<StageParts>;

/// The parts of a configuration, legal or not. Fields, arrays and containers are counted from 0; the first containers are
/// those of the fields. There is one output for each field where they are legal.
#[derive(Drop)]
pub struct Parts {
    pub version: Version,
    pub fields: NameList,
    pub arrays: ArrayList,
    pub containers: u32,
    pub stages: StageList,
    pub outputs: Ports,
}
