//! Taps: who looks on while a machine runs sees the packet before a stage, keeps a number, and changes nothing of the run.
#![tactic(auto)]

mod attached;
pub mod laws;
mod show;
mod tap;
mod tapped;

pub use tap::{CountTap, Tap};
pub use tapped::Tapped;
