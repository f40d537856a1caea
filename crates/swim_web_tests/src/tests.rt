ghost use Rattle.std.specs.Prelude.{None};

use http_server::{Config, Connection};
use std::hash::RandomState;
use std::process::Abort;
use std::test::Fail;
use swim_text::{Page, Sink};
use swim_web::{
    Answer, Daemon, EventLine, Found, Question, Recent, Shelf, Teller, Web, advance, listen,
};
use swim_wire::Id;

const TABLE: &[u8] = b"2 10.0.0.2:7000 up\n3 10.0.0.3:7000 failed 12\n.\n";

const OBJECT: &[u8] = b"{\"members\":[{\"id\":2,\"peer\":\"10.0.0.2:7000\",\"state\":\"up\"},\
    {\"id\":3,\"peer\":\"10.0.0.3:7000\",\"state\":\"failed\",\"period\":12}]}\n";

/// Gives this answer, if there is one, and counts the questions.
#[derive(Drop)]
struct FixedDaemon {
    answer: Option<&'static [u8]>,
    count: u32,
}

impl Daemon for FixedDaemon {
    ghost asked = { λ d. None };

    fn ask(&mut self, _question: Question, answer: &mut Answer) -> bool {
        self.count = self.count.saturating_add(1);
        answer.clear();
        match self.answer {
            Some(text) => answer.try_extend_from_slice(text).is_ok(),
            None => false,
        }
    }
}

/// Has a page about the verdict on member 3 in period 12, no memory for that in period 13, and a file without that of
/// period 14 against which something speaks.
#[derive(Drop)]
struct FixedShelf {
    count: u32,
}

impl Shelf for FixedShelf {
    ghost use Rattle.std.specs.Prelude.{true};

    ghost tells = { λ s found member number text. Unit {0} };

    ghost opened = { λ s. true };

    fn is_open(&self) -> bool {
        true
    }

    fn find(&mut self, member: Id, number: u64, text: &mut Page) -> Found {
        self.count = self.count.saturating_add(1);
        if member.get() != 3 {
            return Found::Nothing;
        }
        match number {
            12 if text.put(b"why\n") => Found::Page,
            13 => Found::NoMemory,
            14 if text.put(b"1-5-0.swim: line 9: differs\n") => Found::Nothing,
            _ => Found::Nothing,
        }
    }
}

/// Tells so many events.
#[derive(Drop)]
struct CountedTeller {
    left: u32,
}

impl Teller for CountedTeller {
    ghost heard = { λ t. None };

    fn hear(&mut self, line: &mut EventLine) -> bool {
        if self.left == 0 {
            return false;
        }
        self.left -= 1;
        line.clear();
        line.try_extend_from_slice(b"{}").is_ok()
    }
}

fn web_with(
    rt: &HostRuntime,
    answer: Option<&'static [u8]>,
) -> Result<Web<FixedDaemon, FixedShelf>, Fail> {
    let alloc = rt.alloc();
    let mut names = Vec::new(alloc);
    names.push(format!(in alloc; "swim:1")?)?;
    Ok(Web {
        alloc,
        names,
        recent: Recent::new(),
        is_late: false,
        is_full: false,
        daemon: Box::new(alloc, FixedDaemon { answer, count: 0 })?,
        shelf: Box::new(alloc, FixedShelf { count: 0 })?,
    })
}

// What is sent for this request, on a connection of its own.
fn served(
    rt: &HostRuntime,
    web: &mut Web<FixedDaemon, FixedShelf>,
    request: &str,
) -> Result<Vec<u8>, Fail> {
    let alloc = rt.alloc();
    let mut connection = Connection::new(alloc, RandomState::new(rt)?, Config::default());
    let mut reader = request.as_bytes();
    let mut sent = Vec::new(alloc);
    connection.read_from(&mut reader)?;
    advance(&mut connection, web);
    for _write in 0..16 {
        connection.write_to(&mut sent)?;
    }
    Ok(sent)
}

// What is sent begins and ends so.
fn assert_sent<R: Abort>(rt: &R, sent: &[u8], first: &str, last: &[u8]) {
    assert!(rt; sent.starts_with(first.as_bytes()), "begins {first}");
    assert!(rt; sent.ends_with(last), "ends after {first}");
}

#[test]
fn answers_each_page(rt: HostRuntime) -> Result<(), Fail> {
    let mut web = web_with(&rt, Some(TABLE))?;
    for (request, first, last) in [
        (
            "GET /healthz HTTP/1.1\r\nHost: swim:1\r\n\r\n",
            "HTTP/1.1 200 OK\r\n",
            b"\r\n\r\nok\n".as_slice(),
        ),
        (
            "GET /members.json HTTP/1.1\r\nHost: swim:1\r\n\r\n",
            "HTTP/1.1 200 OK\r\n",
            OBJECT,
        ),
        (
            "HEAD /members.json HTTP/1.1\r\nHost: swim:1\r\n\r\n",
            "HTTP/1.1 200 OK\r\n",
            b"\r\n\r\n".as_slice(),
        ),
        (
            "GET / HTTP/1.1\r\nHost: swim:1\r\n\r\n",
            "HTTP/1.1 200 OK\r\n",
            b"</html>\n".as_slice(),
        ),
        (
            "GET /events HTTP/1.1\r\nHost: swim:1\r\n\r\n",
            "HTTP/1.1 200 OK\r\n",
            b"\r\n\r\nretry: 2000\n\n".as_slice(),
        ),
        (
            "GET /verdicts.json HTTP/1.1\r\nHost: swim:1\r\n\r\n",
            "HTTP/1.1 200 OK\r\n",
            b"\r\n\r\n{\"explained\":true,\"changes\":[]}\n".as_slice(),
        ),
    ] {
        let sent = served(&rt, &mut web, request)?;
        assert_sent(&rt, sent.as_slice(), first, last);
    }
    assert_eq!(rt; web.daemon.count, 3);
    Ok(())
}

#[test]
fn asks_nothing_else(rt: HostRuntime) -> Result<(), Fail> {
    let mut web = web_with(&rt, Some(TABLE))?;
    for (request, first) in [
        (
            "GET /other HTTP/1.1\r\nHost: swim:1\r\n\r\n",
            "HTTP/1.1 404 ",
        ),
        (
            "POST /healthz HTTP/1.1\r\nHost: swim:1\r\n\r\n",
            "HTTP/1.1 405 ",
        ),
        (
            "GET /healthz HTTP/1.1\r\nHost: swim:2\r\n\r\n",
            "HTTP/1.1 421 ",
        ),
        (
            "GET http://swim:1/healthz HTTP/1.1\r\nHost: swim:1\r\n\r\n",
            "HTTP/1.1 421 ",
        ),
    ] {
        let sent = served(&rt, &mut web, request)?;
        assert_sent(&rt, sent.as_slice(), first, b"\n");
    }
    assert_eq!(rt; web.daemon.count, 0);
    Ok(())
}

#[test]
fn closes_when_full(rt: HostRuntime) -> Result<(), Fail> {
    let mut web = web_with(&rt, Some(TABLE))?;
    let request = "GET /healthz HTTP/1.1\r\nHost: SWIM:1\r\n\r\n";
    for is_full in [false, true] {
        web.is_full = is_full;
        let sent = served(&rt, &mut web, request)?;
        assert_sent(&rt, sent.as_slice(), "HTTP/1.1 200 OK\r\n", b"ok\n");
        let count = sent
            .windows(17)
            .filter(|bytes| *bytes == b"connection: close".as_slice())
            .count();
        assert_eq!(rt; count, usize::from(is_full));
    }
    Ok(())
}

#[test]
fn tells_samples_with_their_heads(rt: HostRuntime) -> Result<(), Fail> {
    let mut web = web_with(&rt, Some(b"swimd_ticks_total{member=\"1\"} 7\n.\n"))?;
    let request = "GET /metrics HTTP/1.1\r\nHost: swim:1\r\n\r\n";
    let sent = served(&rt, &mut web, request)?;
    assert_sent(
        &rt,
        sent.as_slice(),
        "HTTP/1.1 200 ",
        b"\r\n\r\n# HELP swimd_ticks_total Ticks of time that were taken.\n# TYPE swimd_ticks_total counter\n\
            swimd_ticks_total{member=\"1\"} 7\n",
    );
    let table = served(
        &rt,
        &mut web,
        "GET /members.json HTTP/1.1\r\nHost: swim:1\r\n\r\n",
    )?;
    assert_sent(&rt, table.as_slice(), "HTTP/1.1 503 ", b"no answer\n");
    Ok(())
}

#[test]
fn remembers_an_owed_answer(rt: HostRuntime) -> Result<(), Fail> {
    let mut web = web_with(&rt, None)?;
    for _request in 0..2 {
        let sent = served(
            &rt,
            &mut web,
            "GET /healthz HTTP/1.1\r\nHost: swim:1\r\n\r\n",
        )?;
        assert_sent(&rt, sent.as_slice(), "HTTP/1.1 503 ", b"no answer\n");
    }
    assert_eq!(rt; web.daemon.count, 1);
    Ok(())
}

#[test]
fn keeps_the_last_events(rt: HostRuntime) -> Result<(), Fail> {
    let mut web = web_with(&rt, None)?;
    let mut teller = CountedTeller { left: 70 };
    listen(&mut teller, &mut web.recent);
    listen(&mut teller, &mut web.recent);
    let sent = served(
        &rt,
        &mut web,
        "GET /events HTTP/1.1\r\nHost: swim:1\r\nLast-Event-ID: 69\r\n\r\n",
    )?;
    assert_sent(
        &rt,
        sent.as_slice(),
        "HTTP/1.1 200 ",
        b"\r\n\r\nretry: 2000\n\nid: 70\ndata: {}\n\n",
    );
    let all = served(
        &rt,
        &mut web,
        "GET /events HTTP/1.1\r\nHost: swim:1\r\nLast-Event-ID: 71\r\n\r\n",
    )?;
    assert_sent(
        &rt,
        all.as_slice(),
        "HTTP/1.1 200 ",
        b"\n\nid: 70\ndata: {}\n\n",
    );
    let count = all
        .windows(4)
        .filter(|bytes| *bytes == b"id: ".as_slice())
        .count();
    assert_eq!(rt; count, 64);
    let request = "GET /verdicts.json HTTP/1.1\r\nHost: swim:1\r\n\r\n";
    let object = served(&rt, &mut web, request)?;
    let first = "HTTP/1.1 200 OK\r\ncontent-type: application/json\r\n";
    assert_sent(&rt, object.as_slice(), first, b",{},{}]}\n");
    let count = object
        .windows(2)
        .filter(|bytes| *bytes == b"{}".as_slice())
        .count();
    assert_eq!(rt; count, 64);
    Ok(())
}

#[test]
fn shows_verdicts(rt: HostRuntime) -> Result<(), Fail> {
    let mut web = web_with(&rt, Some(TABLE))?;
    for (request, first, last) in [
        (
            "GET /verdicts/3/12 HTTP/1.1\r\nHost: swim:1\r\n\r\n",
            "HTTP/1.1 200 OK\r\ncontent-type: text/html; charset=utf-8\r\n",
            b"\r\n\r\nwhy\n".as_slice(),
        ),
        (
            "GET /verdicts/3/11 HTTP/1.1\r\nHost: swim:1\r\n\r\n",
            "HTTP/1.1 404 ",
            b"\r\n\r\nno such verdict\n".as_slice(),
        ),
        (
            "GET /verdicts/3/13 HTTP/1.1\r\nHost: swim:1\r\n\r\n",
            "HTTP/1.1 500 ",
            b"\r\n\r\n".as_slice(),
        ),
        (
            "GET /verdicts/3/14 HTTP/1.1\r\nHost: swim:1\r\n\r\n",
            "HTTP/1.1 404 ",
            b"\r\n\r\nno such verdict\n1-5-0.swim: line 9: differs\n".as_slice(),
        ),
    ] {
        let sent = served(&rt, &mut web, request)?;
        assert_sent(&rt, sent.as_slice(), first, last);
    }
    assert_eq!(rt; web.shelf.count, 4);
    assert_eq!(rt; web.daemon.count, 0);
    Ok(())
}

#[test]
fn knows_no_other_path_of_a_verdict(rt: HostRuntime) -> Result<(), Fail> {
    let mut web = web_with(&rt, Some(TABLE))?;
    for request in [
        "GET /verdicts/03/12 HTTP/1.1\r\nHost: swim:1\r\n\r\n",
        "GET /verdicts/3/12/ HTTP/1.1\r\nHost: swim:1\r\n\r\n",
        "GET /verdicts/0/12 HTTP/1.1\r\nHost: swim:1\r\n\r\n",
        "GET /verdicts/3 HTTP/1.1\r\nHost: swim:1\r\n\r\n",
        "GET /a/verdicts/3/12 HTTP/1.1\r\nHost: swim:1\r\n\r\n",
    ] {
        let sent = served(&rt, &mut web, request)?;
        assert_sent(
            &rt,
            sent.as_slice(),
            "HTTP/1.1 404 ",
            b"\r\n\r\nno such page\n",
        );
    }
    assert_eq!(rt; web.shelf.count, 0);
    Ok(())
}
