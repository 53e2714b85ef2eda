//! The syntax tree of packet transactions.
#![tactic(auto)]

mod checked;
mod expr;
mod flanks;
mod named;
mod part;
mod program;
mod serial;
mod steps;
mod stmt;

pub use checked::{Act, ActList, BodyList, Checked};
pub use expr::{Expr, ExprList, OpList};
pub use flanks::{FlankItem, FlankList, Flanked};
pub use named::{Named, NamedItem, NamedList};
pub use part::{Goal, Part, PartList, PartOps, Place};
pub use program::{FieldList, Head, HeadList, Init, Length, Program, Transaction, TransactionList};
pub use serial::SerialRun;
pub use steps::{Step, StepList, Straight};
pub use stmt::{Stmt, StmtList, Target};
