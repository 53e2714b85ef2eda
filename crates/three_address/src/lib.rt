//! The last pass before the statement graph: expressions become statements of one operation each, and statements that
//! nothing needs go.
#![tactic(auto)]

mod expressions;
mod fault;
mod items;
pub mod laws;
mod needs;
mod numbering;
mod pass;

pub use fault::FlatFault;
pub use pass::flatten;
