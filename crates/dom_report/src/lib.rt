//! What is put: texts line by line, and the reports of runs, made while the program runs or its configuration is clocked.
#![tactic(auto)]

mod clocked;
mod clocking;
mod drawing;
mod driving;
mod each_cycle;
mod elastic_report;
mod entering;
pub mod laws;
mod moment;
mod probe_report;
mod ranked_report;
mod run_report;
mod selfrun;
mod serial_report;
mod tapping;
mod text;
mod watch_report;

pub use driving::drive;
pub use elastic_report::put_elastic_report;
pub use probe_report::put_probe_report;
pub use ranked_report::put_ranked_report;
pub use run_report::put_run_report;
pub use selfrun::{Summary, run_drawn, summary_text};
pub use serial_report::put_serial_report;
pub use text::put_text;
pub use watch_report::put_watch_report;
