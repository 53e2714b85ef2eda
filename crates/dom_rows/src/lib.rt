//! Tests alone, of what no clause says: rows of words, files and answers through the top call, and the crates below it at
//! their real ends.
#![tactic(auto)]

#[cfg(test)]
mod tests;
