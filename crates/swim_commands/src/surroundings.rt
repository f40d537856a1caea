//! Where the program runs.

/// Where the program runs, as far as its words ask for it.
#[derive(Clone, Copy)]
pub struct Surroundings<'a> {
    /// The path of the control socket where no word says another; `None` where it is no text in UTF-8.
    pub control: Option<&'a str>,
    /// The same of the events' socket.
    pub events: Option<&'a str>,
    /// Whether a terminal is at standard input.
    pub is_typed: bool,
    /// Whether a terminal is at standard output.
    pub is_shown: bool,
}
