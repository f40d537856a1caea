//! Responses, each with the same safe header fields.

ghost use Rattle.std.specs.Prelude.{◌≡◌, [], OnOk, OnErr};
ghost use Rattle.http_server.specs.Response.{IsBlank, IsResponse};
ghost use Rattle.swim_web.specs.Replies.{Closes, ClosesIf, IsReply, fields_for, kind_text, policy_text};

use crate::front_page::FRONT_POLICY;
use bytes::BufMut;
use http::{HeaderName, HeaderValue, StatusCode, header};
use http_server::Response;
use std::alloc::AllocError;

/// What a page about a verdict may do: its own style and that of its picture are shown. It has no script, and asks for
/// nothing. The hashes are those of the texts between `<style>` and `</style>`.
pub(crate) const VERDICT_POLICY: &str = "default-src 'none'; \
    style-src 'sha256-Dy7GRDvvYrOBJnfm54f3q1p4ZlGedn8oHMVvBAozZbc=' \
    'sha256-DETRP922j08JsmR5ZahO9up9na2z7ducf873B/dVe44='; \
    img-src data:; base-uri 'none'; form-action 'none'; frame-ancestors 'none'";

/// What the body of a response is.
#[derive(Clone, Copy, Debug, PartialEq, Eq)]
pub enum Kind {
    /// Plain text.
    Text,
    /// Samples in the text format of Prometheus.
    Metrics,
    /// JSON.
    Json,
    /// A page.
    Html,
    /// A stream of Server-Sent Events.
    Events,
    /// A page about a verdict.
    Verdict,
}

impl Kind {
    /// Returns the value of `content-type`.
    fn value(self) -> HeaderValue
        ensures { result.bytes ≡ kind_text self }
    {
        match self {
            Kind::Text => HeaderValue::from_static("text/plain; charset=utf-8"),
            Kind::Metrics => HeaderValue::from_static("text/plain; version=0.0.4; charset=utf-8"),
            Kind::Json => HeaderValue::from_static("application/json"),
            Kind::Html | Kind::Verdict => HeaderValue::from_static("text/html; charset=utf-8"),
            Kind::Events => HeaderValue::from_static("text/event-stream"),
        }
    }

    /// Returns the value of `content-security-policy`. That of a page has the hashes of its script and of its styles.
    fn policy(self) -> HeaderValue
        ensures { result.bytes ≡ policy_text self }
    {
        match self {
            Kind::Html => HeaderValue::from_static(FRONT_POLICY),
            Kind::Verdict => HeaderValue::from_static(VERDICT_POLICY),
            _ => HeaderValue::from_static("default-src 'none'; frame-ancestors 'none'"),
        }
    }
}

/// Fills a response that is blank. If memory is refused, it becomes a 500 with neither fields nor a body.
pub fn reply(response: &mut Response, status: StatusCode, kind: Kind, body: &[u8])
    requires { IsBlank response.old }
    ensures { IsReply status kind body.now response.new }
{
    if fill(response, status, kind, body).is_err() {
        give_up(response);
    }
}

/// Makes a 500 of a response, with neither fields nor a body, as memory is refused.
fn give_up(response: &mut Response)
    ensures { IsResponse 500 [] [] response.new }
{
    response.clear();
    response.status = StatusCode::INTERNAL_SERVER_ERROR;
}

/// Fills a response that is blank. After an `Err` nothing is known of it.
fn fill(
    response: &mut Response,
    status: StatusCode,
    kind: Kind,
    body: &[u8],
) -> Result<(), AllocError>
    requires { IsBlank response.old }
    ensures { OnOk result (IsResponse status (fields_for kind) body.now response.new) }
{
    response.add_header(header::CONTENT_TYPE, kind.value())?;
    response.add_header(
        HeaderName::from_static("x-content-type-options"),
        HeaderValue::from_static("nosniff"),
    )?;
    response.add_header(
        HeaderName::from_static("content-security-policy"),
        kind.policy(),
    )?;
    response.add_header(
        HeaderName::from_static("cross-origin-resource-policy"),
        HeaderValue::from_static("same-origin"),
    )?;
    response.add_header(header::CACHE_CONTROL, HeaderValue::from_static("no-store"))?;
    response.add_header(header::ALLOW, HeaderValue::from_static("GET, HEAD"))?;
    response.status = status;
    response.body.put_slice(body)
}

/// Asks for the connection to be closed behind a response, if all places are taken.
pub(crate) fn close_if(is_full: bool, response: &mut Response)
    ensures { ClosesIf is_full response.old response.new }
{
    if is_full {
        close(response);
    }
}

/// Asks for the connection to be closed behind a response. If memory is refused, it becomes a 500 with neither fields
/// nor a body.
fn close(response: &mut Response)
    ensures { Closes response.old response.new }
{
    let added = response.add_header(header::CONNECTION, HeaderValue::from_static("close"));
    if added.is_err() {
        give_up(response);
    }
}
