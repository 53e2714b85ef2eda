use dom_words::{BinOp, Name, Seq, UnOp};

/// An expression. `at` is the offset of its first token. A chain has one operator or more, all of one level of
/// precedence, and is folded from the left; a number is the word that it stands for.
#[derive(Debug, Drop)]
pub enum Expr {
    Number {
        at: u32,
        word: u32,
    },
    Word {
        at: u32,
        name: Name,
    },
    Field {
        at: u32,
        base: Name,
        field_at: u32,
        field: Name,
    },
    Index {
        at: u32,
        array: Name,
        index: Box<Expr>,
    },
    Call {
        at: u32,
        unit: Name,
        args: ExprList,
    },
    Un {
        at: u32,
        op: UnOp,
        arg: Box<Expr>,
    },
    Chain {
        first: Box<Expr>,
        rest: OpList,
    },
    Cond {
        test: Box<Expr>,
        yes: Box<Expr>,
        no: Box<Expr>,
    },
}

/// Expressions in order.
pub type ExprList = Seq<Expr>;

/// Operators, each with the operand after it.
pub type OpList = Seq<(BinOp, Expr)>;
