//! A script as it is played, line by line.

ghost use Rattle.std.specs.Prelude.{◌≡◌, ◌≢◌, ◌+◌, ◌<◌, ◌≤◌, ◌∷◌, List, ℕ, Some, None, Ok, Err, MatchResult, OnOk, not};
ghost use Rattle.std.specs.Prelude.{if◌then◌else◌};
ghost use Rattle.swim_text.specs.Lines.{bare};
ghost use Rattle.swim_text.specs.Streams.{failures_if};
ghost use Rattle.swim_history.specs.declared.entries.Entry.{Entry};
ghost use Rattle.swim_script.specs.declared.commands.Command.TheVariants as commands;
ghost use Rattle.swim_script.specs.Ends.{IsJournalOf};
ghost use Rattle.swim_script.specs.Forms.{form_after, form_of, is_mark, most_bytes};
ghost use Rattle.swim_script.specs.Headers.{nothing_told, told_then};
ghost use Rattle.swim_script.specs.Script.{Turn, lines_of, is_write, result_kind};
ghost use Rattle.swim_script.specs.Holds.{Done, Holds, Turned, kept, ending, stage_in};

use crate::arguments::{OpenArguments, OrderText, SEED_BYTES};
use crate::choosers::Drawer;
use crate::commands::{Command, Stage, read_line};
use crate::faults::{FaultKind, ScriptFault};
use crate::forms::{Form, JOURNAL_BYTES, is_mark};
use crate::headers::Header;
use crate::outcomes::LineOutcome;
use crate::tellers::Teller;
use std::alloc::Global;
use std::marker::Model;
use swim_detector::Recorder;
use swim_history::{Call, Journal, Row};
use swim_text::Sink;
use swim_wire::Version;

/// Where a script has come: its header, and the recorder once an event line was met.
#[derive(Drop)]
pub struct Session {
    pub(crate) alloc: Global,
    pub(crate) lines: u32,
    pub(crate) header: Header,
    pub(crate) recorder: Option<Recorder<Drawer>>,
}

impl Model for Session {
    ghost use Rattle.swim_script.specs.Holds.{Played};

    ghost Value = { Played };

    ghost view = { λ s. record { lines = s.lines; header = s.header; recorded = s.recorder } };
}

impl Session {
    /// A script of which no line was read.
    pub fn new(alloc: Global) -> Session
        ensures { result ≡ record { lines = 0; header = nothing_told; recorded = None } }
    {
        Session {
            alloc,
            lines: 0,
            header: Header::new(alloc),
            recorder: None,
        }
    }

    /// A fault in the line after those that were read.
    pub(crate) fn fault(&self, kind: FaultKind) -> ScriptFault
        requires { self.now.lines < u32.MAX }
        ensures { result ≡ record { line = self.now.lines + 1; kind = kind } }
    {
        ScriptFault {
            line: self.lines + 1,
            kind,
        }
    }

    /// The form of a script of that form so far, with its next line.
    pub(crate) fn form_with(&self, form: Form, line: &[u8]) -> Form
        ensures form { result ≡ form_after self.now.lines line.now form }
        ensures grows { most_bytes form ≤ most_bytes result }
        ensures most { most_bytes result ≤ JOURNAL_BYTES }
    {
        form.after(self.lines, line)
    }

    /// Plays the next line of the script, which has that form with it, and has its answer written.
    #[inline(always)]
    pub(crate) fn turn<W: Sink, T: Teller<W>>(
        &mut self,
        form: Form,
        line: &[u8],
        writer: &mut W,
        teller: &mut T,
    ) -> Result<(), ScriptFault>
        requires { self.old.lines < u32.MAX }
        ensures turned { (turns : List Turn) (run : List Entry) (text piece : List ℕ) → Holds turns run text self.old →
            bare piece ≡ line.now → form ≡ form_of (piece ∷ lines_of turns) →
            Turned turns run text piece self.new (W.written writer.old) (W.written writer.new) result }
        ensures failures { W.failures writer.new ≡ failures_if (W.failures writer.old) (not (is_write result)) }
        ensures count { OnOk result (self.new.lines ≡ self.old.lines + 1) }
        ensures words { result_kind result ≢ Some FaultKind.Read }
    {
        if self.begins_journal(line) {
            self.skip();
            return Ok(());
        }
        match read_line(form, self.stage(), line) {
            Err(fault) => Err(self.fault(FaultKind::Words(fault))),
            Ok(None) => {
                self.skip();
                Ok(())
            }
            Ok(Some(command)) => self.carry_out(command, writer, teller),
        }
    }

    /// Whether the next line, which is this one, is the first of a journal file.
    fn begins_journal(&self, line: &[u8]) -> bool
        ensures { result ≡ is_mark self.now.lines line.now }
    {
        is_mark(self.lines, line)
    }

    /// The end of the script.
    pub(crate) fn end(&self) -> Result<(), ScriptFault>
        ensures { MatchResult result
            (λ done. ending self.now ≡ None)
            (λ fault. ending self.now ≡ Some fault) }
    {
        if self.recorder.is_none() {
            let _opening = self.header.opening()?;
        }
        Ok(())
    }

    /// The journal, once an event line was met.
    pub fn into_journal(self) -> Option<Journal>
        ensures { IsJournalOf self.recorded result }
    {
        Some(self.recorder?.into_journal())
    }

    /// Does what a line says.
    #[inline(always)]
    fn carry_out<W: Sink, T: Teller<W>>(
        &mut self,
        command: Command<'_>,
        writer: &mut W,
        teller: &mut T,
    ) -> Result<(), ScriptFault>
        requires { self.old.lines < u32.MAX }
        ensures done { Done self.old self.new command.entry (W.written writer.old) (W.written writer.new) result }
        ensures count { OnOk result (self.new.lines ≡ self.old.lines + 1) }
        ensures unread { result_kind result ≢ Some FaultKind.Read }
        ensures failures { W.failures writer.new ≡ failures_if (W.failures writer.old) (not (is_write result)) }
    {
        match command {
            Command::Open(arguments) => {
                self.open(arguments);
                Ok(())
            }
            Command::Row(row) => {
                self.add_row(row);
                Ok(())
            }
            Command::Order(order) => self.add_order(order),
            Command::Place(place) => self.add_place(place),
            Command::Seed(key, life) => {
                self.set_seed(key, life);
                Ok(())
            }
            Command::Wire(version) => {
                self.set_wire(version);
                Ok(())
            }
            Command::Tick => self.call(Call::Tick, writer, teller),
            Command::Hear(source, read) => self.hear(source, read, writer, teller),
            Command::Join(id, peer) => self.call(Call::Join(id, peer), writer, teller),
            Command::Remove(id) => self.call(Call::Remove(id), writer, teller),
            Command::Table => self.show(LineOutcome::Table, writer, teller),
            Command::Gap(id) => self.show(LineOutcome::Gap(id), writer, teller),
            Command::Answer(answer) => self.confirm(answer),
        }
    }

    /// A line that says nothing.
    pub(crate) fn skip(&mut self)
        requires { self.old.lines < u32.MAX }
        ensures { self.new ≡ record self.old { lines = self.old.lines + 1 } }
    {
        self.lines += 1;
    }

    fn open(&mut self, arguments: OpenArguments)
        requires { self.old.lines < u32.MAX }
        ensures { self.new ≡
            record {
              lines = self.old.lines + 1;
              header =
                  told_then (self.old.lines + 1) (commands.Open arguments) self.old.header;
              recorded = self.old.recorded;
            } }
    {
        self.lines += 1;
        self.header.open(self.lines, arguments);
    }

    fn add_row(&mut self, row: Row)
        requires { self.old.lines < u32.MAX }
        ensures { self.new ≡
            record {
              lines = self.old.lines + 1;
              header =
                  kept (told_then (self.old.lines + 1) (commands.Row row) self.old.header);
              recorded =
                  self.old.recorded;
            } }
    {
        self.lines += 1;
        self.header.add_row(row);
    }

    // A function of its own, since the order is large.
    #[inline(never)]
    fn add_order(&mut self, order: OrderText<'_>) -> Result<(), ScriptFault>
        requires { self.old.lines < u32.MAX }
        ensures { MatchResult result
            (λ done. self.new ≡ record {
              lines = self.old.lines + 1;
              header = told_then (self.old.lines + 1) (commands.Order order.entry) self.old.header;
              recorded = self.old.recorded;
            })
            (λ fault. fault ≡ record { line = self.old.lines + 1; kind = FaultKind.Memory }) }
    {
        self.lines += 1;
        match self.header.add_order(order.read()) {
            Ok(()) => Ok(()),
            Err(_) => Err(self.stopped(FaultKind::Memory)),
        }
    }

    fn add_place(&mut self, place: u32) -> Result<(), ScriptFault>
        requires { self.old.lines < u32.MAX }
        ensures { MatchResult result
            (λ done. self.new ≡ record {
              lines = self.old.lines + 1;
              header = told_then (self.old.lines + 1) (commands.Place place) self.old.header;
              recorded = self.old.recorded;
            })
            (λ fault. fault ≡ record { line = self.old.lines + 1; kind = FaultKind.Memory }) }
    {
        self.lines += 1;
        match self.header.add_place(place) {
            Ok(()) => Ok(()),
            Err(_) => Err(self.stopped(FaultKind::Memory)),
        }
    }

    fn set_seed(&mut self, key: [u8; SEED_BYTES], life: u64)
        requires { self.old.lines < u32.MAX }
        ensures { self.new ≡
            record {
              lines = self.old.lines + 1;
              header =
                  told_then (self.old.lines + 1) (commands.Seed key life) self.old.header;
              recorded = self.old.recorded;
            } }
    {
        self.lines += 1;
        self.header.set_seed(key, life);
    }

    fn set_wire(&mut self, version: Version)
        requires { self.old.lines < u32.MAX }
        ensures { self.new ≡
            record {
              lines = self.old.lines + 1;
              header =
                  told_then (self.old.lines + 1) (commands.Wire version) self.old.header;
              recorded = self.old.recorded;
            } }
    {
        self.lines += 1;
        self.header.set_wire(version);
    }

    /// Whether the answer of the newest line was written.
    pub(crate) fn written(&self, done: bool) -> Result<(), ScriptFault>
        ensures { result ≡ (if done then Ok tt else Err (record { line = self.now.lines; kind = FaultKind.Write })) }
    {
        if done {
            Ok(())
        } else {
            Err(self.stopped(FaultKind::Write))
        }
    }

    /// A fault in the newest line.
    pub(crate) fn stopped(&self, kind: FaultKind) -> ScriptFault
        ensures { result ≡ record { line = self.now.lines; kind = kind } }
    {
        ScriptFault {
            line: self.lines,
            kind,
        }
    }

    fn stage(&self) -> Stage
        ensures { result ≡ stage_in self.now.header self.now.recorded }
    {
        if self.recorder.is_some() {
            Stage::Events
        } else {
            self.header.stage()
        }
    }
}
