//! The first pass of the compiler: branches become conditional moves.
#![tactic(auto)]

mod branch;
mod copy;
mod pass;
mod steps;
mod transactions;

pub use pass::remove;
