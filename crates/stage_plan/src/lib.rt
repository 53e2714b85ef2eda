//! The stages of codelets: the list schedule, or why there is none.
#![tactic(auto)]

mod board;
mod chains;
mod fault;
pub mod laws;
mod place;
mod planning;

pub use fault::{Chain, PlanFault};
pub use place::{Place, Stages};
pub use planning::plan;
