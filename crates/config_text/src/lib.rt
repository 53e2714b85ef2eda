//! The text of a configuration, both ways.
#![tactic(auto)]

mod draft;
mod fault;
mod first;
pub mod laws;
mod line;
mod numbers;
mod reader;
mod spelling;
mod trees;
mod writer;

pub use fault::ReadFault;
pub use reader::read_parts;
pub use writer::write_config;
