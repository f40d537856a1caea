//! What a picture is drawn of, each part with its text for those who hear it.

pub(crate) mod clock_line;
pub(crate) mod gaps;
pub(crate) mod head;
pub(crate) mod lane_lines;
pub(crate) mod mark_shapes;
pub(crate) mod ruler;
