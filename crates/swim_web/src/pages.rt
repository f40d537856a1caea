//! Which page a request asks for.

ghost use Rattle.std.specs.Prelude.{◌≡◌, ◌^◌, ◌-◌, codes, option_copied};
ghost use Rattle.std.specs.Option.{unwrap_or};
ghost use Rattle.std.specs.Str.{str_eq_ignore_ascii_case};
ghost use Rattle.http.specs.Request.{head_of};
ghost use Rattle.http_header.specs.HeaderMap.{get};
ghost use Rattle.swim_text.specs.Numbers.{number_of};
ghost use Rattle.swim_web.specs.Pages.{is_known, is_listed, page_asked, page_at, page_by, rest_of, seen_in};
ghost use Rattle.swim_web.specs.Pages.{verdict_at, verdict_by, verdict_named};

use bytes::Bytes;
use http::{HeaderName, Request, header};
use swim_text::{cut, read_number};
use swim_wire::Id;

/// What a request asks for.
#[derive(Clone, Copy, Debug, PartialEq, Eq)]
pub enum Page {
    /// The page for people.
    Front,
    /// Whether the daemon answers.
    Health,
    /// Its counts.
    Metrics,
    /// Its member table.
    Members,
    /// The events that are kept, as JSON.
    Changes,
    /// The events above this number.
    Events(u64),
    /// Why a member was judged failed at the end of the period with this number.
    Verdict(Id, u64),
    /// Nothing that there is.
    Unknown,
    /// What no page allows: a method other than GET and HEAD.
    Forbidden,
    /// Something of another host.
    Misdirected,
}

/// Returns the page that a request asks for, of a server with these names.
pub fn page_asked(names: &[String], request: &Request<Bytes>) -> Page
    ensures { result ≡ page_asked (is_listed names.now) (head_of request.now) }
{
    if is_known(names, request) {
        page_by(
            request.method().as_str(),
            request.uri().path(),
            last_seen(request),
        )
    } else {
        Page::Misdirected
    }
}

/// Returns whether a request is to one of these names.
fn is_known(names: &[String], request: &Request<Bytes>) -> bool
    ensures { result ≡ is_known (is_listed names.now) (head_of request.now) }
{
    if request.uri().authority().is_some() {
        return false;
    }
    match request.headers().get(header::HOST) {
        Some(host) => is_listed(names, host.as_bytes()),
        None => false,
    }
}

/// Returns whether a host is one of these names, whatever letters of it are capitals.
fn is_listed(names: &[String], host: &[u8]) -> bool
    ensures { result ≡ is_listed names.now host.now }
{
    names.iter().any(|name| is_same(name.as_bytes(), host))
}

/// Returns whether a host has this name, whatever letters of either are capitals.
fn is_same(name: &[u8], host: &[u8]) -> bool
    ensures { result ≡ str_eq_ignore_ascii_case name.now host.now }
{
    name.eq_ignore_ascii_case(host)
}

/// Returns the number of the last event that the sender has seen.
fn last_seen(request: &Request<Bytes>) -> u64
    ensures { result ≡ seen_in (get (head_of request.now).headers (codes "last-event-id")) }
{
    match request
        .headers()
        .get(HeaderName::from_static("last-event-id"))
    {
        Some(number) => number_or_0(number.as_bytes()),
        None => 0,
    }
}

/// Returns the number that a text is, and 0 if it is none.
fn number_or_0(text: &[u8]) -> u64
    ensures { result ≡ unwrap_or (number_of (2 ^ 64 - 1) text.now) 0 }
{
    read_number(text, u64::MAX).unwrap_or(0)
}

/// Returns the page at a path that is asked for by this method.
fn page_by(method: &str, path: &str, seen: u64) -> Page
    ensures { result ≡ page_by method.now path.now seen }
{
    if method == "GET" || method == "HEAD" {
        page_at(path, seen)
    } else {
        Page::Forbidden
    }
}

/// Returns the page at a path.
fn page_at(path: &str, seen: u64) -> Page
    ensures { result ≡ page_at path.now seen }
{
    if path == "/" {
        Page::Front
    } else if path == "/healthz" {
        Page::Health
    } else if path == "/metrics" {
        Page::Metrics
    } else if path == "/members.json" {
        Page::Members
    } else if path == "/verdicts.json" {
        Page::Changes
    } else if path == "/events" {
        Page::Events(seen)
    } else {
        verdict_at(path.as_bytes())
    }
}

/// Returns the page of the verdict that a path names: `/verdicts/ID/PERIOD`.
fn verdict_at(path: &[u8]) -> Page
    ensures { result ≡ verdict_at path.now }
{
    match rest_of(path) {
        Some(rest) => verdict_named(rest),
        None => Page::Unknown,
    }
}

/// Returns what is behind the folder of verdicts in a path, if the path is there.
fn rest_of(path: &[u8]) -> Option<&[u8]>
    ensures { option_copied result ≡ rest_of path.now }
{
    let (root, rest) = cut(path, b'/')?;
    let (folder, rest) = cut(rest, b'/')?;
    if root == b"".as_slice() && folder == b"verdicts".as_slice() {
        Some(rest)
    } else {
        None
    }
}

/// Returns the page of the verdict with this name, `ID/PERIOD`.
fn verdict_named(name: &[u8]) -> Page
    ensures { result ≡ verdict_named name.now }
{
    match cut(name, b'/') {
        Some((member, number)) => verdict_by(Id::read(member), read_number(number, u64::MAX)),
        None => Page::Unknown,
    }
}

/// Returns the page of the verdict on a member at the end of a period, if both are told.
fn verdict_by(member: Option<Id>, number: Option<u64>) -> Page
    ensures { result ≡ verdict_by member number }
{
    match (member, number) {
        (Some(member), Some(number)) => Page::Verdict(member, number),
        _ => Page::Unknown,
    }
}
