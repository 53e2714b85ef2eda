use crate::expr::Expr;
use crate::stmt::StmtList;
use dom_words::{Name, Seq};

/// A program: what stands before its transactions, and these in the order of the text.
#[derive(Debug, Drop)]
pub struct Program {
    pub heads: HeadList,
    pub transactions: TransactionList,
}

/// A transaction: the struct's name in its head, which is its tag, and the parameter's, with the offset of each, its guard
/// and its body.
#[derive(Debug, Drop)]
pub struct Transaction {
    pub tag_at: u32,
    pub tag: Name,
    pub param_at: u32,
    pub param: Name,
    pub guard: Option<Expr>,
    pub body: StmtList,
}

/// A define, the struct, or a global. `at` is the offset of the declared name.
#[derive(Debug, Drop)]
pub enum Head {
    Define {
        at: u32,
        name: Name,
        word: u32,
    },
    Struct {
        at: u32,
        tag: Name,
        fields: FieldList,
    },
    Global {
        at: u32,
        name: Name,
        length: Option<Length>,
        init: Option<Init>,
    },
}

/// The length of a global between its brackets.
#[derive(Debug, Drop)]
pub enum Length {
    Number { at: u32, word: u32 },
    Word { at: u32, name: Name },
}

/// The word that a global starts with, or the name that stands for it.
#[derive(Debug, Drop)]
pub enum Init {
    Word { word: u32 },
    Named { at: u32, name: Name },
}

/// The fields of the struct: the offset of each name and the name.
pub type FieldList = Seq<(u32, Name)>;

/// What stands before the transactions, in order.
pub type HeadList = Seq<Head>;

/// Transactions in order.
pub type TransactionList = Seq<Transaction>;
