//! Tests of `swim_disk`: what no contract of it says, and each public call once. They stand in a crate of their own,
//! since a crate with tests is proved twice, with them and without. What touches a real disk is tested over the built
//! daemon.
#![tactic(auto)]

#[cfg(test)]
mod tests;
