//! Tests alone, of what no clause says: taps that are attached to a machine, and change while it runs.
#![tactic(auto)]

#[cfg(test)]
mod tests;
