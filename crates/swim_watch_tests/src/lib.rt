//! Tests of `swim_watch`: each public call once, and what is written for lines that no daemon writes. They stand in a
//! crate of their own, since a crate with tests is proved twice, with them and without.
#![tactic(auto)]

#[cfg(test)]
mod tests;
