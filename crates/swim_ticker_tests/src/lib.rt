//! Tests of `swim_ticker`: what no contract of it says, and each public call once. They stand in a crate of their
//! own, since a crate with tests is proved twice, with them and without.
#![tactic(auto)]

#[cfg(test)]
mod gates;
#[cfg(test)]
mod knocking;
#[cfg(test)]
mod lives;
#[cfg(test)]
mod metering;
#[cfg(test)]
mod ticking;
