//! One name for each value: assignments of literals and names are taken away, and every other value gets a name of its own.
#![tactic(auto)]

pub mod laws;
mod naming;
mod operand;
mod renaming;
mod tables;

pub use naming::name;
