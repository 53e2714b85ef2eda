//! The law of a feed-forward pipeline, over every list of stages and every list of entries.
#![tactic(auto)]

pub mod laws;
