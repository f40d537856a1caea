//! What is wrong with a control line.

ghost use Rattle.std.specs.Prelude.{◌≡◌};
ghost use Rattle.swim_control.specs.Commands.{fault_number};

/// What is wrong with the words of a line.
#[derive(Clone, Copy)]
pub enum WordFault {
    /// An unknown first word.
    UnknownWord,
    /// A missing or refused id.
    BadId,
    /// A missing or refused address.
    BadPeer,
    /// Words left over.
    Extra,
}

/// What is wrong with a line.
#[derive(Clone, Copy)]
pub enum Fault {
    /// A byte more than a line may have came before a line feed.
    LongLine,
    /// The input ended within the line.
    Unended,
    /// Its words are wrong.
    Words(WordFault),
}

impl Fault {
    /// The number that tells the fault.
    pub fn number(self) -> u8
        ensures { result ≡ fault_number self }
    {
        match self {
            Fault::LongLine => 1,
            Fault::Words(WordFault::UnknownWord) => 2,
            Fault::Words(WordFault::BadId) => 3,
            Fault::Words(WordFault::BadPeer) => 4,
            Fault::Words(WordFault::Extra) => 5,
            Fault::Unended => 6,
        }
    }
}
