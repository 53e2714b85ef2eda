//! The machine with bounded queues in place of registers, whose stages fire in any order: what it does event by event, and
//! that what leaves is what packets come out as one after another.
#![tactic(auto)]

mod elastic;
pub mod laws;
mod make;
mod mark;
mod moves;
mod ready;

pub use elastic::Elastic;
pub use ready::NotReady;
