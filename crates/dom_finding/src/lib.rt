//! What a command finds: its words, the texts of its files, and what they are or why they are refused.
#![tactic(auto)]

mod command;
mod configs;
pub mod laws;
mod plans;
mod queues;
mod ranking;
mod reading;
mod refusals;
mod selfrun;
mod source;
mod stage;
mod wanted;

pub use command::{Command, ConfigFiles, Files, read_words};
pub use configs::{config_stop, parts_in};
pub use plans::{codelets_text, plan_file, plan_in, plan_refusal};
pub use queues::{events_file, events_of};
pub use ranking::Ranking;
pub use reading::{Stop, config_file, packets_of, program_file, text_in, trace_file};
pub use refusals::Refusal;
pub use selfrun::own_program;
pub use source::{compile_stop, program_in};
pub use stage::Stage;
pub use wanted::WantedFile;
