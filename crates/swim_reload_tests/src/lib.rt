//! Tests of `swim_reload`: texts that no contract spells, and each public call once. They stand in a crate of their own,
//! since a crate with tests is proved twice, with them and without.
#![tactic(auto)]

#[cfg(test)]
mod tests;
