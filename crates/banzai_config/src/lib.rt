//! Configurations of the pipeline: their parts, which of them are legal for a target, and what their atoms and stages do.
#![tactic(auto)]

mod build;
mod check;
mod config;
mod copy;
mod fault;
mod head;
mod judge;
pub mod laws;
mod named;
mod numbers;
mod outputs;
mod parts;
mod places;
mod show;
mod target;
mod walk;

pub use config::Config;
pub use copy::{copy_arrays, copy_names, copy_operation};
pub use fault::{ConfigFault, ConfigKind};
pub use parts::{
    FitAtom, FitAtoms, NameList, OpAtom, OpAtoms, PartSlot, PartSlots, Parts, StageList,
    StageParts, TreeAtom, TreeAtoms, Version,
};
pub use target::{Geometry, Target, Template};
