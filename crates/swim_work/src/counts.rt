//! What a worker counts, and why it ends.

ghost use Rattle.std.specs.Prelude.{◌≡◌, IfSome};
ghost use Rattle.swim_work.specs.Ends.{end_at, graver, gravity, one_fault_more, together, why_text};

/// How many faults in a row a worker takes of its line or its door before it gives up.
const MOST_FAULTS: u32 = 16;

/// Why a life ended, the gravest reason first.
#[derive(Clone, Copy, Debug, PartialEq, Eq)]
pub enum Why {
    /// A worker met a full journal.
    JournalFull,
    /// A worker could not be started.
    NoMemory,
    /// A worker gave up on its line or its door.
    Socket,
    /// It was told to.
    Stopped,
}

impl Why {
    /// Of two reasons the graver.
    pub fn or(self, other: Why) -> Why
        ensures { result ≡ graver self other }
    {
        if self.gravity() < other.gravity() {
            other
        } else {
            self
        }
    }

    fn gravity(self) -> u8
        ensures { result ≡ gravity self }
    {
        match self {
            Why::JournalFull => 3,
            Why::NoMemory => 2,
            Why::Socket => 1,
            Why::Stopped => 0,
        }
    }

    /// Its words in the line that tells how a life ended.
    pub fn text(self) -> &'static [u8]
        ensures { result.now ≡ why_text self }
    {
        match self {
            Why::JournalFull => b"journal full",
            Why::NoMemory => b"no memory",
            Why::Socket => b"socket",
            Why::Stopped => b"stopped",
        }
    }
}

/// What happened to a worker beside its calls. Each count stops at 2^64-1.
#[derive(Clone, Copy)]
pub struct Counts {
    /// Datagrams that couldn't be sent.
    pub unsent: u64,
    /// Datagrams that came and were none of this protocol.
    pub wire: u64,
    /// Calls that were refused for want of memory.
    pub refused: u64,
}

impl Counts {
    /// Nothing was counted yet.
    pub fn none() -> Counts
        ensures { result ≡ record { unsent = 0; wire = 0; refused = 0 } }
    {
        Counts {
            unsent: 0,
            wire: 0,
            refused: 0,
        }
    }

    /// Both counts together.
    pub fn and(self, other: Counts) -> Counts
        ensures { result ≡ together self other }
    {
        Counts {
            unsent: self.unsent.saturating_add(other.unsent),
            wire: self.wire.saturating_add(other.wire),
            refused: self.refused.saturating_add(other.refused),
        }
    }
}

/// How many faults in a row a worker's gate answered last. The count stops at 2^32-1.
#[derive(Clone, Copy)]
pub struct Faults {
    /// So many stand in a row now.
    pub in_a_row: u32,
}

impl Faults {
    /// The gate answered no fault yet.
    pub fn none() -> Faults
        ensures { result.in_a_row ≡ 0 }
    {
        Faults { in_a_row: 0 }
    }

    /// The gate answered something else.
    pub fn clear(&mut self)
        ensures { self.new.in_a_row ≡ 0 }
    {
        self.in_a_row = 0;
    }

    /// One more; why the worker ends, if that is one too many.
    pub fn more(&mut self) -> Option<Why>
        ensures count { self.new.in_a_row ≡ one_fault_more self.old.in_a_row }
        ensures ends { result ≡ end_at self.new.in_a_row }
        ensures socket { IfSome result (λ why. why ≡ Why.Socket) }
    {
        self.in_a_row = self.in_a_row.saturating_add(1);
        if self.in_a_row < MOST_FAULTS {
            return None;
        }
        Some(Why::Socket)
    }
}
