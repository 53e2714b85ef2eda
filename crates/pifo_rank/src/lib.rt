//! A push-in first-out queue: packets wait by a signed rank, and of those with the least rank the one that came first is
//! served first. And such a queue behind a machine, ranked by a field of the packets that leave it.
#![tactic(auto)]

pub mod laws;
mod pifo;
mod ranked;
mod waiting;

pub use pifo::Pifo;
pub use ranked::{Outcome, Ranked};
