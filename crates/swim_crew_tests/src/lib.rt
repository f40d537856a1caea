//! Tests of `swim_crew`: what no contract of it says, and each public call once. They are in a crate of their own,
//! since a crate with tests is proved twice, with them and without.
#![tactic(auto)]

#[cfg(test)]
mod tests;
