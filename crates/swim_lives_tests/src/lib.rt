//! Tests of lives: the workers, the recorder and the keeper of a daemon together, over gates in memory. No contract says
//! that they are at work at the same time, and what one of them leaves for another.
#![tactic(auto)]

#[cfg(test)]
mod tests;
