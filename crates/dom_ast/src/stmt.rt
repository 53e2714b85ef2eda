use crate::expr::Expr;
use dom_words::{Name, Seq};

/// A statement. `at` is the offset of its first token. An `if` without an `else` has an empty list in its place; a
/// branch that is one assignment or, after `else`, one `if` is a list of that one.
#[derive(Debug, Drop)]
pub enum Stmt {
    Assign {
        at: u32,
        target: Target,
        value: Expr,
    },
    If {
        test: Expr,
        yes: StmtList,
        no: StmtList,
    },
}

/// What an assignment writes.
#[derive(Debug, Drop)]
pub enum Target {
    Word(Name),
    Field {
        base: Name,
        field_at: u32,
        field: Name,
    },
    Index {
        array: Name,
        index: Expr,
    },
}

/// Statements in order.
pub type StmtList = Seq<Stmt>;
