//! Packet traces, and the lines of reports.
#![tactic(auto)]

mod events;
pub mod laws;
mod lines;
mod plain;
mod trace;

pub use events::{Event, EventsFault, read_events};
pub use lines::Lines;
pub use trace::{Trace, TraceFault, read_trace};
