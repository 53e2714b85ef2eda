//! What the compiled parts of a statement list do, and that they are legal.
#![tactic(auto)]

pub mod laws;
