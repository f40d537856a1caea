//! The picture of a run, as an SVG: what happened to each member at which tick.
#![tactic(auto)]

mod clock;
mod drawing;
mod earlier_runs;
mod lanes;
mod picture_marks;
mod pictures;
mod rows;
mod scale;
mod spans;
mod starts;
mod style;
mod timeline;
mod times;

pub use earlier_runs::EarlierRun;
pub use lanes::Lanes;
pub use picture_marks::{MarkKind, PictureMark};
pub use pictures::{Picture, show};
pub use spans::{MOST_PERIODS, PERIODS_ASIDE, Span, View};
pub use timeline::put_timeline;
pub use times::{StartTime, Times, UtcTime};
