use dom_words::{BinOp, HashName, Seq, UnOp};

/// What a statement works on: a word, or the number of a value.
#[derive(Clone, Copy, Debug, PartialEq, Eq)]
pub enum Operand {
    Const(u32),
    Value(u32),
}

/// Operands in order.
pub type Operands = Seq<Operand>;

/// A statement. `Fetch` reads the word of an array at an index and is its read flank; `Store` writes a word there and is its
/// write flank. `Cond` gives `a` where `c` is not 0, else `b`. `Hash` gives the hash unit's answer modulo `modulus`, or the
/// answer itself where `modulus` is 0.
#[derive(Debug, Drop)]
pub enum Line {
    Fetch {
        array: u32,
        index: Operand,
    },
    Store {
        array: u32,
        index: Operand,
        value: Operand,
    },
    Un {
        op: UnOp,
        a: Operand,
    },
    Bin {
        op: BinOp,
        a: Operand,
        b: Operand,
    },
    Cond {
        c: Operand,
        a: Operand,
        b: Operand,
    },
    Hash {
        unit: HashName,
        modulus: u32,
        args: Operands,
    },
}

/// Statements in order, counted from 0.
pub type LineList = Seq<Line>;
