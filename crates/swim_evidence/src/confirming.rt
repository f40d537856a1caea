//! Which entries of a journal file are confirmed: behind whose calls the file tells what they were answered.

ghost use Rattle.std.specs.Prelude.{◌≡◌, ◌+◌, ◌==◌, Some, None, if◌then◌else◌};
ghost use Rattle.swim_evidence.specs.Confirming.{confirmed_with, first_missed, unanswered};

/// A call whose answer no line told before another call followed.
#[derive(Clone, Copy, Debug, PartialEq, Eq)]
pub struct Missed {
    /// The line of the call.
    pub line: u32,
    /// The place that its entry would have, if it made one.
    pub entry: u32,
}

/// What the lines of a journal file have confirmed so far. Lines are counted from 1, and entries from 0.
#[derive(Clone, Copy, Debug, Default, PartialEq, Eq)]
pub struct Confirmations {
    /// How many entries are confirmed, from the first on.
    pub confirmed: u32,
    /// The line of the last call, where no line told its answer so far.
    pub waiting: Option<u32>,
    /// The first call that another followed before its answer was told.
    pub missed: Option<Missed>,
}

impl Confirmations {
    /// The line of that number was a call.
    pub fn call(&mut self, line: u32)
        ensures confirmed { self.new.confirmed ≡ self.old.confirmed }
        ensures waiting { self.new.waiting ≡ Some line }
        ensures missed { self.new.missed ≡ first_missed self.old }
    {
        if self.missed.is_none() {
            self.missed = self.unanswered();
        }
        self.waiting = Some(line);
    }

    /// The call that waits for its answer.
    fn unanswered(&self) -> Option<Missed>
        ensures { result ≡ unanswered self.now.confirmed self.now.waiting }
    {
        Some(Missed {
            line: self.waiting?,
            entry: self.confirmed,
        })
    }

    /// A line told rightly what the entry at that place was answered, which is the newest. An entry that is confirmed
    /// again changes nothing, and none is confirmed behind one that isn't.
    pub fn answer(&mut self, place: u32)
        ensures confirmed { self.new.confirmed ≡ confirmed_with self.old.confirmed place }
        ensures waiting { self.new.waiting ≡ (if place == self.old.confirmed then None else self.old.waiting) }
        ensures missed { self.new.missed ≡ self.old.missed }
    {
        if place == self.confirmed {
            self.confirmed = self.confirmed.saturating_add(1);
            self.waiting = None;
        }
    }
}
