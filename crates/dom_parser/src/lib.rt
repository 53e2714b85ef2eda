//! From tokens to the syntax tree.
#![tactic(auto)]

mod expressions;
mod faults;
mod heads;
mod kinds;
pub mod laws;
mod parser;
mod statements;

pub use faults::ParseFault;
pub use parser::parse;
