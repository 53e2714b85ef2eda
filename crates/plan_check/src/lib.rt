//! Plans that somebody else made: their texts, whether they are lawful, and the configurations that they give.
#![tactic(auto)]

mod accepting;
mod configuring;
mod fault;
pub mod laws;
mod line;
mod plan;
mod reading;

pub use accepting::accept;
pub use configuring::configure;
pub use fault::{HandFault, PlanTextFault};
pub use plan::HandPlan;
pub use reading::read_plan;
