//! What each request is answered.

ghost use Rattle.std.specs.Prelude.{◌≡◌, ◌++◌, Some, codes, option_copied};
ghost use Rattle.http_server.specs.Response.{IsBlank};
ghost use Rattle.swim_metrics.specs.Headed.{headed};
ghost use Rattle.swim_web.specs.Asking.{Asks, told_if};
ghost use Rattle.swim_web.specs.Changes.{changes_text};
ghost use Rattle.swim_web.specs.Objects.{members_text};
ghost use Rattle.swim_web.specs.Recent.{stream_text};
ghost use Rattle.swim_web.specs.Replies.{AreMembers, AreMetrics, AreSamples, IsHealth, IsReply, IsUnanswered};
ghost use Rattle.swim_web.specs.Replies.{IsVerdict, Serves, samples_in};

use crate::daemons::{Answer, Daemon, ask_once};
use crate::front_page::FRONT_PAGE;
use crate::objects::put_members;
use crate::pages::{Page, page_asked};
use crate::questions::Question;
use crate::recent::Recent;
use crate::replies::{Kind, close_if, reply};
use crate::shelves::{Found, Shelf};
use crate::tables::read_table;
use bytes::Bytes;
use http::{Request, StatusCode};
use http_server::{Response, Service};
use std::alloc::{AllocError, Global};
use swim_history::Row;
use swim_metrics::put_headed;
use swim_text::{Page as Text, Sink};
use swim_wire::Id;

/// Serves what a daemon answers.
#[derive(Drop)]
pub struct Web<D: Daemon + Drop, S: Shelf + Drop> {
    /// Where memory for pages comes from.
    pub alloc: Global,
    /// What a request may have in its field `host`, in capital or small letters: names with the port, as
    /// `localhost:8946`. At port 80 a client leaves the port out, and there each name stands here without it, too.
    pub names: Vec<String>,
    /// The events that were heard last.
    pub recent: Recent,
    /// Whether the daemon owed an answer just now. Then it isn't asked.
    pub is_late: bool,
    /// Whether all places are taken. Then a connection is closed behind its response.
    pub is_full: bool,
    /// The daemon that is asked.
    pub daemon: Box<D>,
    /// Where verdicts are looked up.
    pub shelf: Box<S>,
}

impl<D: Daemon + Drop, S: Shelf + Drop> Service for Web<D, S> {
    ghost use Rattle.std.specs.Prelude.{◌≡◌, box_value};
    ghost use Rattle.swim_web.specs.Pages.{is_listed};
    ghost use Rattle.swim_web.specs.Replies.{Answers};

    ghost answers = { λ old request response new.
        Answers (S.tells (box_value new.shelf)) (S.opened (box_value old.shelf)) (is_listed old.names.items) old.is_full
        old.recent (record { asked = D.asked (box_value old.daemon); is_late = old.is_late }) request response
        new.recent (record { asked = D.asked (box_value new.daemon); is_late = new.is_late })
        × (new.names ≡ old.names) × (new.is_full ≡ old.is_full) };

    fn call(
        &mut self,
        request: &Request<Bytes>,
        response: &mut Response,
    ) -> Result<(), AllocError> {
        let page = page_asked(self.names.as_slice(), request);
        serve_page(
            self.alloc,
            &mut *self.daemon,
            &mut self.is_late,
            &self.recent,
            &mut *self.shelf,
            page,
            response,
        );
        close_if(self.is_full, response);
        Ok(())
    }
}

/// Answers a page.
fn serve_page<D: Daemon, S: Shelf>(
    alloc: Global,
    daemon: &mut D,
    is_late: &mut bool,
    recent: &Recent,
    shelf: &mut S,
    page: Page,
    response: &mut Response,
)
    requires { IsBlank response.old }
    ensures { Serves (S.tells shelf.new) (S.opened shelf.old) page recent.now
        (record { asked = D.asked daemon.old; is_late = is_late.old }) response.new
        (record { asked = D.asked daemon.new; is_late = is_late.new }) }
{
    match page {
        Page::Health => serve_health(daemon, is_late, response),
        Page::Metrics => serve_metrics(alloc, daemon, is_late, response),
        Page::Members => serve_members(alloc, daemon, is_late, response),
        Page::Front => reply(response, StatusCode::OK, Kind::Html, FRONT_PAGE.as_bytes()),
        Page::Changes => reply_changes(alloc, response, recent, shelf.is_open()),
        Page::Events(number) => reply_events(alloc, response, recent, number),
        Page::Verdict(member, number) => serve_verdict(alloc, shelf, member, number, response),
        Page::Misdirected => reply(
            response,
            StatusCode::MISDIRECTED_REQUEST,
            Kind::Text,
            b"no such host\n",
        ),
        Page::Unknown => reply(
            response,
            StatusCode::NOT_FOUND,
            Kind::Text,
            b"no such page\n",
        ),
        Page::Forbidden => reply(
            response,
            StatusCode::METHOD_NOT_ALLOWED,
            Kind::Text,
            b"only GET and HEAD\n",
        ),
    }
}

/// Answers whether the daemon answers.
fn serve_health<D: Daemon>(daemon: &mut D, is_late: &mut bool, response: &mut Response)
    requires { IsBlank response.old }
    ensures { Asks Question.List (record { asked = D.asked daemon.old; is_late = is_late.old })
        (record { asked = D.asked daemon.new; is_late = is_late.new }) (λ told. IsHealth told response.new) }
{
    let mut answer = Answer::new();
    let is_told = ask_once(daemon, is_late, Question::List, &mut answer);
    reply_health(response, told(is_told, answer.as_slice()));
}

/// Answers the counts.
fn serve_metrics<D: Daemon>(
    alloc: Global,
    daemon: &mut D,
    is_late: &mut bool,
    response: &mut Response,
)
    requires { IsBlank response.old }
    ensures { Asks Question.Stats (record { asked = D.asked daemon.old; is_late = is_late.old })
        (record { asked = D.asked daemon.new; is_late = is_late.new }) (λ told. AreMetrics told response.new) }
{
    let mut answer = Answer::new();
    let is_told = ask_once(daemon, is_late, Question::Stats, &mut answer);
    reply_metrics(alloc, response, told(is_told, answer.as_slice()));
}

/// Answers the member table.
fn serve_members<D: Daemon>(
    alloc: Global,
    daemon: &mut D,
    is_late: &mut bool,
    response: &mut Response,
)
    requires { IsBlank response.old }
    ensures { Asks Question.List (record { asked = D.asked daemon.old; is_late = is_late.old })
        (record { asked = D.asked daemon.new; is_late = is_late.new }) (λ told. AreMembers told response.new) }
{
    let mut answer = Answer::new();
    let is_told = ask_once(daemon, is_late, Question::List, &mut answer);
    reply_members(alloc, response, told(is_told, answer.as_slice()));
}

/// Answers why a member was judged.
fn serve_verdict<S: Shelf>(
    alloc: Global,
    shelf: &mut S,
    member: Id,
    number: u64,
    response: &mut Response,
)
    requires { IsBlank response.old }
    ensures { IsVerdict (λ found text. S.tells shelf.new found member number text) response.new }
{
    let mut text = Text::new(alloc);
    match shelf.find(member, number, &mut text) {
        Found::Page => reply(response, StatusCode::OK, Kind::Verdict, text.text()),
        Found::Nothing => reply_lacking(alloc, response, text.text()),
        Found::NoMemory => response.status = StatusCode::INTERNAL_SERVER_ERROR,
    }
}

/// Returns an answer, if there is one.
fn told(is_told: bool, answer: &[u8]) -> Option<&[u8]>
    ensures { option_copied result ≡ told_if is_told answer.now }
{
    if is_told { Some(answer) } else { None }
}

/// Replies that there is an answer, or that there is none.
fn reply_health(response: &mut Response, told: Option<&[u8]>)
    requires { IsBlank response.old }
    ensures { IsHealth (option_copied told.entry) response.new }
{
    match told {
        Some(_) => reply(response, StatusCode::OK, Kind::Text, b"ok\n"),
        None => reply_unanswered(response),
    }
}

/// Replies with the samples of an answer.
fn reply_metrics(alloc: Global, response: &mut Response, told: Option<&[u8]>)
    requires { IsBlank response.old }
    ensures { AreMetrics (option_copied told.entry) response.new }
{
    match told {
        Some(answer) => reply_samples(alloc, response, samples_of(answer)),
        None => reply_unanswered(response),
    }
}

/// Replies with samples, or that there are none.
fn reply_samples(alloc: Global, response: &mut Response, samples: Option<&[u8]>)
    requires { IsBlank response.old }
    ensures { AreSamples (option_copied samples.entry) response.new }
{
    match samples {
        Some(samples) => reply_headed(alloc, response, samples),
        None => reply_unanswered(response),
    }
}

/// Replies with samples, with what each metric tells and its type in front of its own.
fn reply_headed(alloc: Global, response: &mut Response, samples: &[u8])
    requires { IsBlank response.old }
    ensures { IsReply 200 Kind.Metrics (headed samples.now) response.new }
{
    let mut text = Text::new(alloc);
    if put_headed(&mut text, samples) {
        reply(response, StatusCode::OK, Kind::Metrics, text.text());
    } else {
        response.status = StatusCode::INTERNAL_SERVER_ERROR;
    }
}

/// Returns what stands before the dot that ends an answer.
fn samples_of(answer: &[u8]) -> Option<&[u8]>
    ensures { option_copied result ≡ samples_in answer.now }
{
    answer.strip_suffix(b".\n")
}

/// Replies with the table that an answer is.
fn reply_members(alloc: Global, response: &mut Response, told: Option<&[u8]>)
    requires { IsBlank response.old }
    ensures { AreMembers (option_copied told.entry) response.new }
{
    match told {
        Some(answer) => reply_table(alloc, response, answer),
        None => reply_unanswered(response),
    }
}

/// Replies with the table that an answer is, or that it is none.
fn reply_table(alloc: Global, response: &mut Response, answer: &[u8])
    requires { IsBlank response.old }
    ensures { AreMembers (Some answer.now) response.new }
{
    match read_table(answer) {
        Some(table) => reply_rows(alloc, response, table.as_slice()),
        None => reply_unanswered(response),
    }
}

/// Replies with rows.
fn reply_rows(alloc: Global, response: &mut Response, rows: &[Row])
    requires { IsBlank response.old }
    ensures { IsReply 200 Kind.Json (members_text rows.now) response.new }
{
    let mut text = Text::new(alloc);
    if put_members(&mut text, rows) {
        reply(response, StatusCode::OK, Kind::Json, text.text());
    } else {
        response.status = StatusCode::INTERNAL_SERVER_ERROR;
    }
}

/// Replies with the events, and whether verdicts are explained.
fn reply_changes(alloc: Global, response: &mut Response, recent: &Recent, is_explained: bool)
    requires { IsBlank response.old }
    ensures { IsReply 200 Kind.Json (changes_text is_explained recent.now.lines) response.new }
{
    let mut text = Text::new(alloc);
    if recent.put_object(&mut text, is_explained) {
        reply(response, StatusCode::OK, Kind::Json, text.text());
    } else {
        response.status = StatusCode::INTERNAL_SERVER_ERROR;
    }
}

/// Replies with the events above a number.
fn reply_events(alloc: Global, response: &mut Response, recent: &Recent, number: u64)
    requires { IsBlank response.old }
    ensures { IsReply 200 Kind.Events (stream_text number recent.now) response.new }
{
    let mut text = Text::new(alloc);
    if recent.put_stream(&mut text, number) {
        reply(response, StatusCode::OK, Kind::Events, text.text());
    } else {
        response.status = StatusCode::INTERNAL_SERVER_ERROR;
    }
}

/// Replies that no file tells a verdict, and what speaks against the files that were looked at.
fn reply_lacking(alloc: Global, response: &mut Response, doubts: &[u8])
    requires { IsBlank response.old }
    ensures { IsReply 404 Kind.Text (codes "no such verdict\n" ++ doubts.now) response.new }
{
    let mut text = Text::new(alloc);
    if text.put(b"no such verdict\n") && text.put(doubts) {
        reply(response, StatusCode::NOT_FOUND, Kind::Text, text.text());
    } else {
        response.status = StatusCode::INTERNAL_SERVER_ERROR;
    }
}

/// Replies that the daemon has no answer.
fn reply_unanswered(response: &mut Response)
    requires { IsBlank response.old }
    ensures { IsUnanswered response.new }
{
    reply(
        response,
        StatusCode::SERVICE_UNAVAILABLE,
        Kind::Text,
        b"no answer\n",
    );
}
