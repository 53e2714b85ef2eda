//! The machine that runs a configuration: what it does cycle by cycle, and what packets in flight together come out as.
#![tactic(auto)]

mod fire;
pub mod laws;
mod machine;
mod make;
mod ring;
mod stage;
mod touch;
mod touches;

pub use fire::show;
pub use machine::Machine;
pub use make::arrays;
pub use ring::{enter, run_at};
pub use touch::Touch;
pub use touches::Touches;
