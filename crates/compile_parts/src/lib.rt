//! The configuration of codelets whose atoms have stages.
#![tactic(auto)]

mod adding;
mod configuring;
mod gathering;

pub use configuring::configured;
