//! Tests alone, of what no clause says: whole programs on their way from a text to codelets, trees, atoms and stages, and
//! configurations that break each rule once.
#![tactic(auto)]

#[cfg(test)]
mod tests;
