//! The picture of a probe, as an SVG: what became of each of its datagrams between the lanes of the members.
#![tactic(auto)]

mod arrows;
mod charts;
mod escapes;
mod frame;
mod notes;
mod pictures;
mod roles;
mod spots;
mod style;

pub use charts::{Arrow, Chart, Lane};
pub use pictures::put_chart;
pub use roles::Role;
