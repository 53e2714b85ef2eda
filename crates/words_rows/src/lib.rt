//! Tests alone, of what no clause says: words, hashes, operators and lists at values from outside.
#![tactic(auto)]

#[cfg(test)]
mod tests;
