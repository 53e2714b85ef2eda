//! The statement list: a packet transaction as statements of one operation each.
#![tactic(auto)]

mod eval;
mod flat;
pub mod laws;
mod line;

pub use eval::eval_one;
pub use flat::Flat;
pub use line::{Line, LineList, Operand, Operands};
