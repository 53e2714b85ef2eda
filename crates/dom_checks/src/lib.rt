//! Whether a program is well formed, and the same program with its names resolved.
#![tactic(auto)]

mod expressions;
mod faults;
mod heads;
mod meant;
mod program;
mod scope;
mod seen;
mod statements;

pub use faults::{CheckFault, Limit};
pub use program::check;
