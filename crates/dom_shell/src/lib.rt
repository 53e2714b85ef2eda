//! The top call: the words of the command line, the files that they name, and the bytes that answer them.
#![tactic(auto)]

mod call;
mod commands;
mod ending;
pub mod laws;

pub use call::domino;
pub use dom_report::drive;
