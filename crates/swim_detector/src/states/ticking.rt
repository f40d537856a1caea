//! Ticks (sections 3.1 and 4.3 of the SWIM paper).

ghost use Rattle.std.specs.Prelude.{◌≡◌, ◌≢◌, ◌+◌, ◌<◌, ◌%◌, ℕ, Some, None, false};
ghost use Rattle.std.specs.Option.{option_and_then};
ghost use Rattle.swim_wire.specs.Requests.{aged};
ghost use Rattle.swim_wire.specs.Round.{leave_judged};
ghost use Rattle.swim_history.specs.declared.calls.Call.TheVariants.{Tick};
ghost use Rattle.swim_history.specs.Clock.{phase, period_number};
ghost use Rattle.swim_history.specs.Aim.{unless, unheard};
ghost use Rattle.swim_history.specs.Run.{greatest_number};
ghost use Rattle.swim_detector.specs.Mirrors.{Mirrors, IsAnswered, IsSettled, plain};

use super::State;
use super::addresses::{address_of, probe_of, relays_for};
use swim_history::{Call, Journal, Refusal, Reply};
use swim_targets::{Chooser, Targets};
use swim_wire::Id;

impl State {
    /// One tick passes.
    // Out of line, so that its locals are cleared only where it is called.
    #[inline(never)]
    pub(super) fn tick<C: Chooser>(
        &mut self,
        journal: &Journal,
        chooser: &mut C,
        reply: &mut Reply,
        begins_round: &mut bool,
    )
        requires mirrors { Mirrors journal.now.opening journal.now.past self.old }
        requires none { begins_round.old ≡ false }
        ensures { IsAnswered C.orders C.places journal.now.opening journal.now.past
            Tick (record { reply = reply.new; begins_round = begins_round.new }) self.new chooser.old chooser.new }
    {
        if self.phase == 0 {
            if journal.last_number() == u64::MAX {
                self.refuse(journal, &Call::Tick, Refusal::Spent, reply);
            } else {
                self.start(journal, chooser, reply, begins_round);
            }
        } else if self.phase == journal.opening().rtt() {
            self.time_out(journal, chooser, reply);
        } else {
            self.quiet_tick(journal, reply);
        }
    }

    /// A period ends, and the next begins: an aim that no ack came of is judged failed, and the next
    /// member is probed.
    // Out of line, so that its locals are cleared only where it is called.
    #[inline(never)]
    fn start<C: Chooser>(
        &mut self,
        journal: &Journal,
        chooser: &mut C,
        reply: &mut Reply,
        begins_round: &mut bool,
    )
        requires mirrors { Mirrors journal.now.opening journal.now.past self.old }
        requires begins { phase journal.now.opening journal.now.past ≡ 0 }
        requires unspent { period_number journal.now.opening journal.now.past < greatest_number }
        ensures { IsAnswered C.orders C.places journal.now.opening journal.now.past
            Tick (record { reply = reply.new; begins_round = begins_round.new }) self.new chooser.old chooser.new }
    {
        let judged = unheard(self.heard, self.aim);
        leave(&mut self.targets, &judged);
        let next = self.targets.next(chooser);
        self.pass(journal.opening().period());
        self.aim = next.member;
        self.heard = false;
        let probe = probe_of(journal, &self.aim, journal.last_number() + 1);
        *begins_round = next.drawn.is_some();
        *reply = Reply::Started { judged, probe };
    }

    /// The timeout passed: where no ack of the aim came, other members are asked to ping it.
    fn time_out<C: Chooser>(&mut self, journal: &Journal, chooser: &mut C, reply: &mut Reply)
        requires mirrors { Mirrors journal.now.opening journal.now.past self.old }
        requires timeout { phase journal.now.opening journal.now.past ≡ journal.now.opening.rtt }
        requires inside { phase journal.now.opening journal.now.past ≢ 0 }
        ensures { IsAnswered C.orders C.places journal.now.opening journal.now.past
            Tick (plain reply.new) self.new chooser.old chooser.new }
    {
        match unheard(self.heard, self.aim) {
            None => self.quiet_tick(journal, reply),
            Some(target) => self.ask(journal, chooser, target, reply),
        }
    }

    /// Relays are asked to ping the aim, as no ack of it came.
    // Out of line, so that its locals are cleared only where it is called.
    #[inline(never)]
    fn ask<C: Chooser>(&mut self, journal: &Journal, chooser: &mut C, target: Id, reply: &mut Reply)
        requires mirrors { Mirrors journal.now.opening journal.now.past self.old }
        requires timeout { phase journal.now.opening journal.now.past ≡ journal.now.opening.rtt }
        requires unheard { unheard journal.now.opening journal.now.past ≡ Some target }
        ensures { IsAnswered C.orders C.places journal.now.opening journal.now.past
            Tick (plain reply.new) self.new chooser.old chooser.new }
    {
        self.pass(journal.opening().period());
        *reply = Reply::Asked {
            target,
            peer: address_of(journal, target),
            number: journal.last_number(),
            relays: relays_for(journal, &self.targets, target, chooser),
        };
    }

    /// Nothing is to be done in this tick.
    fn quiet_tick(&mut self, journal: &Journal, reply: &mut Reply)
        requires mirrors { Mirrors journal.now.opening journal.now.past self.old }
        requires inside { phase journal.now.opening journal.now.past ≢ 0 }
        requires quiet { phase journal.now.opening journal.now.past ≡ journal.now.opening.rtt →
            unheard journal.now.opening journal.now.past ≡ None }
        ensures { IsSettled journal.now.opening journal.now.past Tick (plain reply.new) self.new }
    {
        self.pass(journal.opening().period());
        *reply = Reply::Quiet;
    }

    /// The period goes on by a tick, and so do the requests that wait.
    fn pass(&mut self, period: u32)
        requires { self.old.phase < period }
        ensures same { (self.new.targets ≡ self.old.targets) × (self.new.aim ≡ self.old.aim)
            × (self.new.heard ≡ self.old.heard) }
        ensures requests { (self.new.requests.period ≡ self.old.requests.period)
            × (self.new.requests.waiting ≡ aged self.old.requests.waiting) }
        ensures phase { (ticks : ℕ) → self.old.phase ≡ ticks % period → self.new.phase ≡ (ticks + 1) % period }
    {
        self.requests.tick();
        self.phase = phase_after(self.phase, period);
    }
}

/// The phase after one more tick.
fn phase_after(phase: u32, period: u32) -> u32
    requires { phase < period }
    ensures { (ticks : ℕ) → phase ≡ ticks % period → result ≡ (ticks + 1) % period }
{
    if phase + 1 == period { 0 } else { phase + 1 }
}

/// The aim, unless an ack of it was heard.
pub(super) fn unheard(heard: bool, aim: Option<Id>) -> Option<Id>
    ensures { result ≡ option_and_then (λ m. unless heard m) aim }
{
    match aim {
        Some(target) if !heard => Some(target),
        _ => None,
    }
}

/// A judged member leaves the round.
fn leave(targets: &mut Targets, judged: &Option<Id>)
    ensures { targets.new ≡ leave_judged judged.now targets.old }
{
    if let Some(member) = judged {
        targets.remove(*member);
    }
}
