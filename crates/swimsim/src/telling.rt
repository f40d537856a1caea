//! Answers with words between them.

ghost use Rattle.std.specs.Prelude.{◌≡◌};
ghost use Rattle.swim_text.specs.Streams.{Puts, failures_if};
ghost use Rattle.swim_wire.specs.Layout.{fault_number};
ghost use Rattle.swim_script.specs.Outcomes.{outcome_text};
ghost use Rattle.swimsim.specs.Telling.{AreSent, IsAnswer, IsEnd, IsEntry, IsExact, IsFault, IsNewest, IsReply, IsSent};
ghost use Rattle.swimsim.specs.Telling.{IsWorded, MayHear, MayName, MayStand, PutsSome, entries_with, number_line};

use crate::reasons::{Reason, reason_of};
use crate::tallies::AnswerTally;
use std::alloc::Global;
use std::io::Stdout;
use swim_history::{Call, Opening, Reply, sends};
use swim_script::{LineOutcome, Session, Teller, put_reply, put_send};
use swim_text::{Sink, WriteSink, put_numbered};
use swim_verdicts::message_words;
use swim_wire::{Message, Peer, Piece, WireFault, put_pieces};

/// Who writes answers with words: datagrams as they are heard and sent, the names of reasons behind their numbers, the
/// numbers of entries above their answers, or several of these. In want of memory words are left out. It counts the
/// entries so far, and the answers that no entry of a journal tells.
#[derive(Drop)]
pub struct WordTeller {
    alloc: Global,
    has_datagrams: bool,
    has_reasons: bool,
    has_numbers: bool,
    entries: u64,
    tally: AnswerTally,
}

impl WordTeller {
    /// Who has words for datagrams, for reasons, and for the numbers of entries, for each if that is so.
    pub fn new(
        alloc: Global,
        has_datagrams: bool,
        has_reasons: bool,
        has_numbers: bool,
    ) -> WordTeller {
        WordTeller {
            alloc,
            has_datagrams,
            has_reasons,
            has_numbers,
            entries: 0,
            tally: AnswerTally::default(),
        }
    }

    /// How often an answer was given that no entry of a journal tells.
    pub fn tally(&self) -> AnswerTally {
        self.tally
    }

    /// Counts a line behind its answer: as an entry, if it made one, and as an answer that no entry tells otherwise.
    fn count(&mut self, outcome: &LineOutcome)
        ensures { self.new.entries ≡ entries_with outcome.now self.old.entries }
    {
        self.tally.add(outcome);
        match outcome {
            LineOutcome::Made(_) => self.entries = self.entries.saturating_add(1),
            LineOutcome::Full(_) | LineOutcome::NoMemory(_) | LineOutcome::Unread(_) => {}
            LineOutcome::Table | LineOutcome::Gap(_) => {}
        }
    }

    /// What came of the newest line: its answer, with the words that are asked for.
    fn tell<W: Sink>(&self, session: &Session, outcome: &LineOutcome, writer: &mut W) -> bool
        ensures bytes { PutsSome (IsWorded (number_line self.now.has_numbers self.now.entries) self.now.has_datagrams
            self.now.has_reasons session.now.recorded outcome.now)
            (W.written writer.old) (W.written writer.new) result }
        ensures failures { W.failures writer.new ≡ failures_if (W.failures writer.old) result }
    {
        match outcome {
            LineOutcome::Made(call) => self.put_entry(session, call, writer),
            LineOutcome::Full(call) => self.put_refused(session, outcome, call, writer),
            LineOutcome::NoMemory(call) => self.put_refused(session, outcome, call, writer),
            LineOutcome::Unread(fault) => self.put_fault(*fault, writer),
            LineOutcome::Table => session.put(outcome, writer),
            LineOutcome::Gap(_) => session.put(outcome, writer),
        }
    }

    /// The answer to a call that was made, below the number of its entry.
    fn put_entry<W: Sink>(&self, session: &Session, call: &Call, writer: &mut W) -> bool
        ensures bytes { PutsSome (IsEntry (number_line self.now.has_numbers self.now.entries)
            (IsAnswer self.now.has_datagrams call.now
            (IsNewest self.now.has_datagrams self.now.has_reasons session.now.recorded))) (W.written writer.old)
            (W.written writer.new) result }
        ensures failures { W.failures writer.new ≡ failures_if (W.failures writer.old) result }
    {
        if !self.put_number(writer) {
            return false;
        }
        self.put_made(session, call, writer)
    }

    /// The line with the number of the newest entry, if numbers are asked for: how many entries were made before it.
    fn put_number<W: Sink>(&self, writer: &mut W) -> bool
        ensures bytes { Puts (W.written writer.old) (W.written writer.new)
            (number_line self.now.has_numbers self.now.entries) result }
        ensures failures { W.failures writer.new ≡ failures_if (W.failures writer.old) result }
    {
        if !self.has_numbers {
            return writer.put(b"");
        }
        let pieces = [
            Piece::Text(b"# entry "),
            Piece::Number(self.entries),
            Piece::Text(b"\n"),
        ];
        put_pieces(writer, &pieces)
    }

    /// The answer to a call that was made, behind the words of the message that it heard, if it did.
    fn put_made<W: Sink>(&self, session: &Session, call: &Call, writer: &mut W) -> bool
        ensures bytes { PutsSome (IsAnswer self.now.has_datagrams call.now
            (IsNewest self.now.has_datagrams self.now.has_reasons session.now.recorded)) (W.written writer.old)
            (W.written writer.new) result }
        ensures failures { W.failures writer.new ≡ failures_if (W.failures writer.old) result }
    {
        if !self.put_heard(call, writer) {
            return false;
        }
        self.put_answer(session, writer)
    }

    /// What came of a call that was refused, behind the same words.
    fn put_refused<W: Sink>(
        &self,
        session: &Session,
        outcome: &LineOutcome,
        call: &Call,
        writer: &mut W,
    ) -> bool
        ensures bytes { PutsSome (IsAnswer self.now.has_datagrams call.now
            (IsExact (outcome_text session.now.recorded outcome.now))) (W.written writer.old)
            (W.written writer.new) result }
        ensures failures { W.failures writer.new ≡ failures_if (W.failures writer.old) result }
    {
        if !self.put_heard(call, writer) {
            return false;
        }
        session.put(outcome, writer)
    }

    /// The words of the message that a call heard, if it did.
    fn put_heard<W: Sink>(&self, call: &Call, writer: &mut W) -> bool
        ensures bytes { PutsSome (MayHear self.now.has_datagrams call.now) (W.written writer.old)
            (W.written writer.new) result }
        ensures failures { W.failures writer.new ≡ failures_if (W.failures writer.old) result }
    {
        match call {
            Call::Hear(_, message) => self.put_message(message, writer),
            Call::Tick => true,
            Call::Join(_, _) => true,
            Call::Remove(_) => true,
        }
    }

    /// The words of a message.
    fn put_message<W: Sink>(&self, message: &Message, writer: &mut W) -> bool
        ensures bytes { PutsSome (MayStand self.now.has_datagrams message.now) (W.written writer.old)
            (W.written writer.new) result }
        ensures failures { W.failures writer.new ≡ failures_if (W.failures writer.old) result }
    {
        if !self.has_datagrams {
            return true;
        }
        match message_words(self.alloc, message) {
            Ok(words) => writer.put(words.as_bytes()),
            Err(_) => true,
        }
    }

    /// The newest reply.
    fn put_answer<W: Sink>(&self, session: &Session, writer: &mut W) -> bool
        ensures bytes { PutsSome (IsNewest self.now.has_datagrams self.now.has_reasons session.now.recorded)
            (W.written writer.old) (W.written writer.new) result }
        ensures failures { W.failures writer.new ≡ failures_if (W.failures writer.old) result }
    {
        let (Some(reply), Some(opening)) = (session.reply(), session.opening()) else {
            return true;
        };
        self.put_lines(reply, opening, writer)
    }

    /// The lines of a reply: its text, and a line for each message that it sends.
    fn put_lines<W: Sink>(&self, reply: &Reply, opening: &Opening, writer: &mut W) -> bool
        ensures bytes { PutsSome (IsReply self.now.has_datagrams self.now.has_reasons opening.now reply.now)
            (W.written writer.old) (W.written writer.new) result }
        ensures failures { W.failures writer.new ≡ failures_if (W.failures writer.old) result }
    {
        if !put_reply(writer, reply) {
            return false;
        }
        if !self.end_line(reason_of(reply), writer) {
            return false;
        }
        self.put_sends(sends(reply, opening).as_slice(), writer)
    }

    /// The messages that are sent, each with its words below.
    fn put_sends<W: Sink>(&self, sent: &[(Peer, Message)], writer: &mut W) -> bool
        ensures bytes { PutsSome (AreSent self.now.has_datagrams sent.now) (W.written writer.old)
            (W.written writer.new) result }
        ensures failures { W.failures writer.new ≡ failures_if (W.failures writer.old) result }
    {
        let [first, others @ ..] = sent else {
            return true;
        };
        if !self.put_sent(first, writer) {
            return false;
        }
        self.put_sends(others, writer)
    }

    /// A message that is sent, with its words below.
    fn put_sent<W: Sink>(&self, one: &(Peer, Message), writer: &mut W) -> bool
        ensures bytes { PutsSome (IsSent self.now.has_datagrams one.now) (W.written writer.old)
            (W.written writer.new) result }
        ensures failures { W.failures writer.new ≡ failures_if (W.failures writer.old) result }
    {
        if !put_send(writer, one.0, &one.1) {
            return false;
        }
        self.put_message(&one.1, writer)
    }

    /// The line of a datagram that is none.
    fn put_fault<W: Sink>(&self, fault: WireFault, writer: &mut W) -> bool
        ensures bytes { PutsSome (IsFault self.now.has_reasons (fault_number fault) (Reason.Wire fault))
            (W.written writer.old) (W.written writer.new) result }
        ensures failures { W.failures writer.new ≡ failures_if (W.failures writer.old) result }
    {
        if !put_numbered(writer, b"wire ", u64::from(fault.number())) {
            return false;
        }
        self.end_line(Some(Reason::Wire(fault)), writer)
    }

    /// The end of a line, with the name of the reason that it tells.
    fn end_line<W: Sink>(&self, reason: Option<Reason>, writer: &mut W) -> bool
        ensures bytes { PutsSome (IsEnd self.now.has_reasons reason) (W.written writer.old)
            (W.written writer.new) result }
        ensures failures { W.failures writer.new ≡ failures_if (W.failures writer.old) result }
    {
        if !self.put_name(reason, writer) {
            return false;
        }
        writer.put(b"\n")
    }

    fn put_name<W: Sink>(&self, reason: Option<Reason>, writer: &mut W) -> bool
        ensures bytes { PutsSome (MayName self.now.has_reasons reason) (W.written writer.old)
            (W.written writer.new) result }
        ensures failures { W.failures writer.new ≡ failures_if (W.failures writer.old) result }
    {
        let Some(reason) = reason else {
            return true;
        };
        if !self.has_reasons {
            return true;
        }
        match format!(in self.alloc; " {reason}") {
            Ok(name) => writer.put(name.as_bytes()),
            Err(_) => true,
        }
    }
}

/// No contract sees the bytes that standard output takes. What is written to any sink says `tell`.
impl Teller<WriteSink<Stdout>> for WordTeller {
    #[tactic(auto, using(swim_verdicts::specs::Unseen::puts_unseen))]
    fn put(
        &mut self,
        session: &Session,
        outcome: &LineOutcome,
        writer: &mut WriteSink<Stdout>,
    ) -> bool {
        let is_put = self.tell(session, outcome, writer);
        self.count(outcome);
        is_put
    }
}
