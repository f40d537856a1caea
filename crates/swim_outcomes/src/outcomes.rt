//! How a command of the program ended.

ghost use Rattle.std.specs.Prelude.{◌≡◌};
ghost use Rattle.swim_text.specs.Streams.{Puts, failures_if};
ghost use Rattle.swim_outcomes.specs.Outcomes.{status_of, outcome_text};

use swim_config::{ConfigFault, put_fault};
use swim_text::Sink;

/// How a command ended.
#[derive(Clone, Copy)]
pub enum Outcome {
    /// The configuration was checked, and its summary written.
    Checked,
    /// The daemon ran until it was told to stop.
    Stopped,
    /// A daemon was asked, and each of its answers says that what was asked was done.
    Asked,
    /// A daemon was asked, and an answer says that what was asked was not done.
    AskRefused,
    /// An answer of a daemon did not come in time.
    AskTimeout,
    /// A line was not answered, and won't be.
    Unanswered,
    /// The answers of a daemon can't be written.
    AskUnwritten,
    /// The lines to be asked can't be read.
    AskUnread,
    /// Help, the version or a key was written.
    Helped,
    /// The system has no random bytes for a key.
    NoRandom,
    /// There is no such command.
    Usage,
    /// The configuration can't be read.
    Unread,
    /// The configuration is refused, or memory was.
    Refused(ConfigFault),
    /// The summary can't be written.
    Unwritten,
    /// The datagram socket can't be bound.
    NoListen,
    /// The control socket can't be bound.
    NoControl,
    /// The events' socket can't be bound.
    NoEvents,
    /// Memory for the control socket was refused.
    NoMemory,
    /// A socket of the daemon failed too often in a row.
    Socket,
    /// No reader of the member table is to be had.
    NoPlace,
    /// No daemon listens at the control socket.
    NoDaemon,
    /// No daemon listens at the events' socket.
    NoTeller,
    /// What a daemon tells can't be written.
    WatchUnwritten,
    /// Pages can't be served at the address.
    NoWeb,
    /// The system refused to wait for those who ask for pages.
    WebOver,
}

impl Outcome {
    /// The status with which the program ends.
    pub fn status(self) -> u8
        ensures { result ≡ status_of self }
    {
        match self {
            Outcome::Checked | Outcome::Stopped | Outcome::Asked | Outcome::Helped => 0,
            Outcome::AskUnwritten | Outcome::AskUnread | Outcome::WatchUnwritten => 1,
            Outcome::Usage => 2,
            Outcome::AskRefused => 3,
            Outcome::Refused(ConfigFault::NoMemory) | Outcome::NoMemory | Outcome::NoPlace => 4,
            Outcome::Refused(_) | Outcome::Unread | Outcome::Unwritten => 1,
            Outcome::NoListen | Outcome::NoControl | Outcome::Socket | Outcome::NoDaemon => 5,
            Outcome::AskTimeout | Outcome::Unanswered | Outcome::NoRandom => 5,
            Outcome::NoEvents | Outcome::NoTeller => 5,
            Outcome::NoWeb | Outcome::WebOver => 5,
        }
    }
}

/// Writes the line that tells an outcome, if it has one, and answers whether the sink took it.
pub fn put_outcome<W: Sink>(writer: &mut W, outcome: Outcome) -> bool
    ensures bytes { Puts (W.written writer.old) (W.written writer.new) (outcome_text outcome) result }
    ensures failures { W.failures writer.new ≡ failures_if (W.failures writer.old) result }
{
    match outcome {
        Outcome::Refused(fault) => put_fault(writer, fault),
        Outcome::Usage => writer.put(b"usage\n"),
        Outcome::Unread => writer.put(b"configuration file\n"),
        Outcome::NoListen => writer.put(b"bind listen\n"),
        Outcome::NoControl => writer.put(b"bind control\n"),
        Outcome::NoEvents => writer.put(b"bind events\n"),
        Outcome::NoMemory => writer.put(b"no memory\n"),
        Outcome::NoPlace => writer.put(b"no place\n"),
        Outcome::NoDaemon => writer.put(b"connect control\n"),
        Outcome::NoTeller => writer.put(b"connect events\n"),
        Outcome::WatchUnwritten => writer.put(b"watch write\n"),
        Outcome::NoWeb => writer.put(b"bind web\n"),
        Outcome::WebOver => writer.put(b"web wait\n"),
        Outcome::AskTimeout => writer.put(b"ask timeout\n"),
        Outcome::Unanswered => writer.put(b"ask unanswered\n"),
        Outcome::AskUnwritten => writer.put(b"ask write\n"),
        Outcome::AskUnread => writer.put(b"ask read\n"),
        Outcome::NoRandom => writer.put(b"random source\n"),
        Outcome::Checked
        | Outcome::Stopped
        | Outcome::Asked
        | Outcome::AskRefused
        | Outcome::Helped
        | Outcome::Unwritten
        | Outcome::Socket => writer.put(b""),
    }
}
