//! Containers that values share.
#![tactic(auto)]

mod assign;
pub mod laws;
mod marks;
mod naming;
mod sharing;
mod spans;

pub use sharing::share;
