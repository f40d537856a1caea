//! The reasons that answers tell by number.

ghost use Rattle.std.specs.Prelude.{◌≡◌, IfSome, Some};
ghost use Rattle.swim_wire.specs.Layout.{fault_number};
ghost use Rattle.swim_history.specs.Reasons.{drop_number, refusal_number};
ghost use Rattle.swimsim.specs.Reasons.{reason_of};

use std::fmt;
use swim_history::{DropReason, Refusal, Reply};
use swim_wire::WireFault;

/// The greatest number of a reason.
pub const MOST_NUMBER: u8 = 8;

/// Why a message was dropped, or a call refused, or bytes are no datagram. It is shown in words.
#[derive(Clone, Copy)]
pub enum Reason {
    Dropped(DropReason),
    Refused(Refusal),
    Wire(WireFault),
}

impl fmt::Display for Reason {
    fn fmt<W: fmt::Write>(&self, f: &mut fmt::Formatter<W>) -> fmt::Result {
        match self {
            Reason::Dropped(why) => write!(f, "{why}"),
            Reason::Refused(why) => write!(f, "{why}"),
            Reason::Wire(fault) => write!(f, "{fault}"),
        }
    }
}

/// The reason that a reply tells.
pub fn reason_of(reply: &Reply) -> Option<Reason>
    ensures { result ≡ reason_of reply.now }
{
    match reply {
        Reply::Dropped(why) => Some(Reason::Dropped(*why)),
        Reply::Refused(why) => Some(Reason::Refused(*why)),
        _ => None,
    }
}

/// The reason to drop a message that has a number.
pub fn dropped(number: u64) -> Option<DropReason>
    ensures number { IfSome result (λ why. drop_number why ≡ number) }
    ensures every { (why : DropReason) → drop_number why ≡ number → result ≡ Some why }
{
    match number {
        1 => Some(DropReason::NotForMe),
        2 => Some(DropReason::Borrowed),
        3 => Some(DropReason::AboutMe),
        4 => Some(DropReason::Unlisted),
        5 => Some(DropReason::TableFull),
        6 => Some(DropReason::Stray),
        7 => Some(DropReason::NoRequest),
        _ => None,
    }
}

/// The reason to refuse a call that has a number.
pub fn refused(number: u64) -> Option<Refusal>
    ensures number { IfSome result (λ why. refusal_number why ≡ number) }
    ensures every { (why : Refusal) → refusal_number why ≡ number → result ≡ Some why }
{
    match number {
        1 => Some(Refusal::Myself),
        2 => Some(Refusal::Listed),
        3 => Some(Refusal::Full),
        4 => Some(Refusal::Unknown),
        5 => Some(Refusal::Spent),
        _ => None,
    }
}

/// The fault of bytes that has a number.
pub fn wire(number: u64) -> Option<WireFault>
    ensures number { IfSome result (λ fault. fault_number fault ≡ number) }
    ensures every { (fault : WireFault) → fault_number fault ≡ number → result ≡ Some fault }
{
    match number {
        1 => Some(WireFault::Length),
        2 => Some(WireFault::Magic),
        3 => Some(WireFault::Version),
        4 => Some(WireFault::UnknownKind),
        5 => Some(WireFault::ZeroId),
        6 => Some(WireFault::ZeroNumber),
        7 => Some(WireFault::Form),
        8 => Some(WireFault::ZeroPort),
        _ => None,
    }
}
