//! The trees of stateful atoms, and the templates that take them.
#![tactic(auto)]

mod if_else;
pub mod laws;
mod nested;
mod operation;
mod pairs;
mod praw;
mod raw;
mod shapes;
mod sub;
mod template;
mod tree;
mod write;

pub use if_else::{IfElse, IfElseOp, IfElseParams};
pub use nested::{Nested, NestedParams};
pub use operation::{Ports, StatelessOp, apply_stateless, needs_multiplier};
pub use pairs::{Pairs, PairsParams};
pub use praw::{Praw, PrawOp, PrawParams};
pub use raw::{Raw, RawOp, RawParams};
pub use sub::{Sub, SubParams};
pub use template::AtomTemplate;
pub use tree::{
    Guard, Leaf, Port, Rel, Source, Tree, Trees, constants_within, copy_trees, run_trees,
};
pub use write::{Write, WriteParams};
