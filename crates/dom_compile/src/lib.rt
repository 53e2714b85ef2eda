//! The compiler: every pass in its order, from a text to a configuration of the pipeline.
#![tactic(auto)]

mod compiling;
mod faults;
pub mod laws;
mod passes;

pub use compiling::{compile, front};
pub use faults::CompileFault;
