//! From the codelets of a program to the atoms of a target: trees for the work on state, and what a template makes of them.
#![tactic(auto)]

mod atoms;
mod building;
mod class;
mod fault;
mod found;
pub mod laws;
mod matching;
mod operator;
mod rules;
mod table;

pub use atoms::{Atom, Atoms};
pub use class::container;
pub use fault::MatchFault;
pub use matching::{match_all, trees};
pub use operator::{port, ports};
