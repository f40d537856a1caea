//! Messages (section 3.1 of the SWIM paper).

ghost use Rattle.std.specs.Prelude.{◌≡◌, ◌≢◌, ◌↔◌, Some, IsTrue, MatchResult};
ghost use Rattle.swim_wire.specs.Address.{Address};
ghost use Rattle.swim_wire.specs.declared.messages.Kind.TheVariants.{Ping, PingReq, Ack};
ghost use Rattle.swim_history.specs.declared.calls.Call.TheVariants.{Hear};
ghost use Rattle.swim_history.specs.declared.replies.Reply.TheVariants.{Dropped};
ghost use Rattle.swim_history.specs.Clock.{period_number};
ghost use Rattle.swim_history.specs.Aim.{aim};
ghost use Rattle.swim_history.specs.Run.{IsRequest, target_at, Hears};
ghost use Rattle.swim_detector.specs.Mirrors.{Mirrors, IsSettled, plain};

use super::State;
use super::addresses::listed_at;
use swim_history::{DropReason, Journal, Reply};
use swim_relays::TableFull;
use swim_wire::{Kind, Message, Peer};

impl State {
    /// A message came from this address.
    // Out of line, so that its locals are cleared only where it is called.
    #[inline(never)]
    pub(super) fn hear(
        &mut self,
        journal: &Journal,
        message: &Message,
        source: Peer,
        reply: &mut Reply,
    )
        requires { Mirrors journal.now.opening journal.now.past self.old }
        ensures { IsSettled journal.now.opening journal.now.past (Hear source message.now) (plain reply.new) self.new }
    {
        match message.kind {
            Kind::Ping => self.hear_ping(journal, message, source, reply),
            Kind::PingReq => self.hear_request(journal, message, source, reply),
            Kind::Ack => self.hear_ack(journal, message, reply),
        }
    }

    /// A ping for this member is answered by an ack.
    fn hear_ping(&self, journal: &Journal, message: &Message, source: Peer, reply: &mut Reply)
        requires mirrors { Mirrors journal.now.opening journal.now.past self.now }
        requires kind { message.now.kind ≡ Ping }
        ensures { IsSettled journal.now.opening journal.now.past (Hear source message.now) (plain reply.new) self.now }
    {
        let me = journal.opening().me();
        if message.target == me {
            *reply = Reply::Send {
                peer: source,
                message: message.ack_by(me, message.version),
            };
        } else {
            *reply = Reply::Dropped(DropReason::NotForMe);
        }
    }

    /// A request for an indirect probe: the target is pinged, and the request waits for its ack.
    fn hear_request(
        &mut self,
        journal: &Journal,
        message: &Message,
        source: Peer,
        reply: &mut Reply,
    )
        requires mirrors { Mirrors journal.now.opening journal.now.past self.old }
        requires kind { message.now.kind ≡ PingReq }
        ensures { IsSettled journal.now.opening journal.now.past (Hear source message.now) (plain reply.new) self.new }
    {
        match requested_at(journal, message) {
            Ok(peer) => self.take_request(journal, message, source, peer, reply),
            Err(why) => self.drop_request(journal, message, why, reply),
        }
    }

    /// The request is dropped, wherever it came from.
    fn drop_request(&self, journal: &Journal, message: &Message, why: DropReason, reply: &mut Reply)
        requires mirrors { Mirrors journal.now.opening journal.now.past self.now }
        requires kind { message.now.kind ≡ PingReq }
        requires fits { (source : Address) →
            Hears journal.now.opening journal.now.past message.now source PingReq (Dropped why) }
        ensures { (source : Address) →
            IsSettled journal.now.opening journal.now.past (Hear source message.now) (plain reply.new) self.now }
    {
        *reply = Reply::Dropped(why);
    }

    /// The request waits, unless too many do.
    fn take_request(
        &mut self,
        journal: &Journal,
        message: &Message,
        source: Peer,
        peer: Peer,
        reply: &mut Reply,
    )
        requires mirrors { Mirrors journal.now.opening journal.now.past self.old }
        requires kind { message.now.kind ≡ PingReq }
        requires own { IsRequest journal.now.opening.me message.now }
        requires other { message.now.target ≢ journal.now.opening.me }
        requires target { target_at journal.now.opening journal.now.past message.now ≡ Some peer }
        ensures { IsSettled journal.now.opening journal.now.past (Hear source message.now) (plain reply.new) self.new }
    {
        let me = journal.opening().me();
        *reply = match self.requests.ask(message.key(), source, message.version) {
            Ok(()) => Reply::Send {
                peer,
                message: message.ping_by(me),
            },
            Err(TableFull) => Reply::Dropped(DropReason::TableFull),
        };
    }

    /// An ack: of this member's own probe, or one that another member waits for.
    fn hear_ack(&mut self, journal: &Journal, message: &Message, reply: &mut Reply)
        requires mirrors { Mirrors journal.now.opening journal.now.past self.old }
        requires kind { message.now.kind ≡ Ack }
        ensures { (source : Address) →
            IsSettled journal.now.opening journal.now.past (Hear source message.now) (plain reply.new) self.new }
    {
        if message.initiator == journal.opening().me() {
            self.hear_own_ack(journal, message, reply);
        } else {
            self.forward_ack(journal, message, reply);
        }
    }

    /// An ack of this member's own probe counts if it is awaited.
    fn hear_own_ack(&mut self, journal: &Journal, message: &Message, reply: &mut Reply)
        requires mirrors { Mirrors journal.now.opening journal.now.past self.old }
        requires kind { message.now.kind ≡ Ack }
        requires own { message.now.initiator ≡ journal.now.opening.me }
        ensures { (source : Address) →
            IsSettled journal.now.opening journal.now.past (Hear source message.now) (plain reply.new) self.new }
    {
        if self.awaits(journal, message) {
            self.heard = true;
            *reply = Reply::Heard;
        } else {
            *reply = Reply::Dropped(DropReason::Stray);
        }
    }

    /// Whether an ack is one of the aim, for this period.
    fn awaits(&self, journal: &Journal, message: &Message) -> bool
        requires { Mirrors journal.now.opening journal.now.past self.now }
        ensures { IsTrue result ↔
            ((aim journal.now.past ≡ Some message.now.target)
            × (message.now.number ≡ period_number journal.now.opening journal.now.past)) }
    {
        self.aim == Some(message.target) && message.number.get() == journal.last_number()
    }

    /// An ack of another member's probe is sent on, if that member waits for it.
    fn forward_ack(&mut self, journal: &Journal, message: &Message, reply: &mut Reply)
        requires mirrors { Mirrors journal.now.opening journal.now.past self.old }
        requires kind { message.now.kind ≡ Ack }
        requires other { message.now.initiator ≢ journal.now.opening.me }
        ensures { (source : Address) →
            IsSettled journal.now.opening journal.now.past (Hear source message.now) (plain reply.new) self.new }
    {
        let me = journal.opening().me();
        *reply = match self.requests.answer(&message.key()) {
            Some(asker) => Reply::Send {
                peer: asker.0,
                message: message.ack_by(me, asker.1),
            },
            None => Reply::Dropped(DropReason::NoRequest),
        };
    }
}

/// Where the target of a request is to be pinged: where it is listed, else where the request says. Or why the request
/// is dropped.
fn requested_at(journal: &Journal, message: &Message) -> Result<Peer, DropReason>
    ensures { MatchResult result
        (λ peer. IsRequest journal.now.opening.me message.now × (message.now.target ≢ journal.now.opening.me)
        × (target_at journal.now.opening journal.now.past message.now ≡ Some peer))
        (λ why. (source : Address) →
        Hears journal.now.opening journal.now.past message.now source PingReq (Dropped why)) }
{
    let me = journal.opening().me();
    if message.initiator != message.sender {
        return Err(DropReason::Borrowed);
    }
    if message.initiator == me {
        return Err(DropReason::Borrowed);
    }
    if message.target == me {
        return Err(DropReason::AboutMe);
    }
    listed_at(journal, message.target)
        .or(message.at)
        .ok_or(DropReason::Unlisted)
}
