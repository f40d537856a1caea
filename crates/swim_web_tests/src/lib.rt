//! Tests of `swim_web`: what is sent for whole requests, and the public calls once. They stand in a crate of their own,
//! since a crate with tests is proved twice, with them and without.
#![tactic(auto)]

#[cfg(test)]
mod tests;
