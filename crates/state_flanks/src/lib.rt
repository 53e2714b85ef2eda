//! The second pass of the compiler: each array is read once and written once.
#![tactic(auto)]

mod pass;
mod reads;
mod steps;
mod writes;

pub use pass::flank;
