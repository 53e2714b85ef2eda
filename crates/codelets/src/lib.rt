//! Codelets: a statement list cut into pieces that each fit one atom.
#![tactic(auto)]

mod answer;
mod codelet;
mod groups;
mod held;
pub mod laws;
mod leveling;
mod listing;
mod operands;
mod owners;
mod pieces;
mod places;
mod shown;
mod table;
mod used;

pub use answer::{Codelets, condense};
pub use codelet::{Codelet, Kind, Slot, SlotList};
pub use dom_words::Numbers;
