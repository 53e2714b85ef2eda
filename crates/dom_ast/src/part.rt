use dom_words::{BinOp, HashName, Seq, UnOp};

/// The index at which a program reaches an array: a word, or the number of a field.
#[derive(Clone, Copy, Debug, PartialEq, Eq)]
pub enum Place {
    Word(u32),
    Field(u32),
}

/// An expression whose names are numbers: fields and arrays count from 0 in the order of declaration. A scalar is an array
/// of one word at the index `Word(0)`. Fresh names, each for the word of a condition, and made values, each of an item of
/// `Named`, come with the passes of the compiler.
#[derive(Debug, Drop)]
pub enum Part {
    Number(u32),
    Field(u32),
    State {
        array: u32,
        index: Place,
    },
    Fresh(u32),
    Made(u32),
    Call {
        unit: HashName,
        args: PartList,
    },
    Un {
        op: UnOp,
        arg: Box<Part>,
    },
    Chain {
        first: Box<Part>,
        rest: PartOps,
    },
    Cond {
        test: Box<Part>,
        yes: Box<Part>,
        no: Box<Part>,
    },
}

/// Expressions in order.
pub type PartList = Seq<Part>;

/// Operators, each with the operand after it.
pub type PartOps = Seq<(BinOp, Part)>;

/// What an assignment writes, with numbers for names.
#[derive(Clone, Copy, Debug, PartialEq, Eq)]
pub enum Goal {
    Field(u32),
    State { array: u32, index: Place },
    Fresh(u32),
}
