//! What a daemon may be asked: two control lines, neither of which changes anything.

ghost use Rattle.std.specs.Prelude.{◌≡◌};
ghost use Rattle.swim_web.specs.Asked.{line_of};

/// A question to a daemon. There are no others, so nothing that asks by this type can change or stop one.
#[derive(Clone, Copy, Debug, PartialEq, Eq)]
pub enum Question {
    /// For the member table.
    List,
    /// For the counts.
    Stats,
}

impl Question {
    /// Returns the control line that asks it, with its line feed.
    pub fn line(self) -> &'static [u8]
        ensures { result.now ≡ line_of self }
    {
        match self {
            Question::List => b"list\n",
            Question::Stats => b"stats\n",
        }
    }
}
