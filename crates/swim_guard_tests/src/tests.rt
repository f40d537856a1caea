//! Who is heard over a line, and what goes out by a post. The tags are Python's.

ghost use Rattle.std.specs.Prelude.{None};
ghost use Rattle.swim_work.specs.Gates.{FitsInto};

mod fences;

use std::fmt::Debug;
use std::process::Abort;
use std::sync::Wait;
use std::sync::atomic::{AtomicBool, Ordering};
use std::test::Fail;
use swim_guard::{RingKeys, RuleBook, SealedLine, SealedPost, Sieve};
use swim_keys::GroupKey;
use swim_wire::Peer;
use swim_work::{Got, Line, Post};

// The two are the same. A call of this is proved at once, and an `assert_eq!` in some seconds.
fn assert_same<T: PartialEq + Debug, R: Abort>(rt: &R, left: &T, right: &T) {
    assert_eq!(rt; *left, *right);
}

// A ping of member 2 for member 1, number 5.
const PING: &[u8; 24] =
    b"SW\x01\x01\x00\x00\x00\x02\x00\x00\x00\x02\x00\x00\x00\x01\x00\x00\x00\x00\x00\x00\x00\x05";

// The same with its tag by the key of the bytes 0 to 31, by that of the bytes 32 to 63, and by that of the bytes 64 to
// 95.
const BY_FIRST: &[u8; 40] =
    b"SW\x01\x01\x00\x00\x00\x02\x00\x00\x00\x02\x00\x00\x00\x01\x00\x00\x00\x00\x00\x00\x00\x05\
    \xb4\x50\x87\x4f\xca\x11\xf1\xf2\x7a\x23\x73\x27\x8d\x86\x4c\x26";

const BY_SECOND: &[u8; 40] =
    b"SW\x01\x01\x00\x00\x00\x02\x00\x00\x00\x02\x00\x00\x00\x01\x00\x00\x00\x00\x00\x00\x00\x05\
    \x1d\x41\xee\xaf\xce\x95\x95\x4c\x29\x2b\xff\xb5\x33\xb3\x2d\xa5";

const BY_THIRD: &[u8; 40] =
    b"SW\x01\x01\x00\x00\x00\x02\x00\x00\x00\x02\x00\x00\x00\x01\x00\x00\x00\x00\x00\x00\x00\x05\
    \xd2\x07\xab\x53\xcb\x88\xc0\x7d\x25\x82\x39\xc5\xf4\x9a\xf7\xc9";

fn at(last: u8) -> Peer {
    Peer {
        ip: [10, 0, 0, last],
        port: 7000,
    }
}

// The keys of the bytes 0 to 31 and 32 to 63.
fn ring() -> Result<RingKeys, Fail> {
    let mut ring = RingKeys::new();
    ring.push(GroupKey::read(b"000102030405060708090a0b0c0d0e0f101112131415161718191a1b1c1d1e1f")?);
    ring.push(second_key()?);
    Ok(ring)
}

// The key of the bytes 32 to 63.
fn second_key() -> Result<GroupKey, Fail> {
    Ok(GroupKey::read(b"202122232425262728292a2b2c2d2e2f303132333435363738393a3b3c3d3e3f")?)
}

// A book with these two keys, and without a fence.
fn book() -> Result<RuleBook, Fail> {
    Ok(RuleBook::new(ring()?.as_slice(), 0))
}

// A book without keys, whose fence has that rate.
fn book_of(rate: u32) -> RuleBook {
    RuleBook::new(&[], rate)
}

// A line with one datagram, which it gives again and again.
#[derive(Drop)]
struct OneDatagram<'d> {
    datagram: &'d [u8],
    source: Peer,
}

impl<'d> Line for OneDatagram<'d> {
    ghost received = { λ line. None };

    ghost listed = { λ line. None };

    fn receive<R: Wait>(&mut self, _rt: &R, bytes: &mut [u8]) -> Got
        ensures { FitsInto result bytes.new }
    {
        match bytes.get_mut(..self.datagram.len()) {
            Some(front) => {
                front.copy_from_slice(self.datagram);
                Got::Datagram(self.datagram.len(), self.source)
            }
            None => Got::Idle,
        }
    }

    fn list(&mut self, _members: &[Peer]) {}
}

// What is heard of a datagram, and how many were thrown away.
fn heard<R: Wait>(rt: &R, book: &RuleBook, datagram: &[u8]) -> (Got, [u8; 64], u64, Option<Peer>) {
    let line = OneDatagram {
        datagram,
        source: at(3),
    };
    let mut line = SealedLine::new(line, book);
    let mut bytes = [0; 64];
    let got = line.receive(rt, &mut bytes);
    let thrown = line.thrown();
    (got, bytes, thrown.count, thrown.newest)
}

#[test]
fn who_has_a_key_is_heard(rt: HostRuntime) -> Result<(), Fail> {
    let book = book()?;
    for datagram in [BY_FIRST, BY_SECOND] {
        let (got, bytes, forged, newest) = heard(&rt, &book, datagram);
        assert_same(&rt, &got, &Got::Datagram(24, at(3)));
        assert_same(&rt, &bytes.get(..24), &Some(PING.as_slice()));
        assert_same(&rt, &forged, &0);
        assert_same(&rt, &newest, &None);
    }
    Ok(())
}

#[test]
fn who_has_none_is_not_heard(rt: HostRuntime) -> Result<(), Fail> {
    let book = book()?;
    for datagram in [
        BY_THIRD.as_slice(),
        PING.as_slice(),
        &BY_FIRST[..39],
        &BY_FIRST[..0],
    ] {
        let (got, _, forged, newest) = heard(&rt, &book, datagram);
        assert_same(&rt, &got, &Got::Idle);
        assert_same(&rt, &forged, &1);
        assert_same(&rt, &newest, &Some(at(3)));
    }
    Ok(())
}

#[test]
fn without_keys_all_are_heard(rt: HostRuntime) {
    let (got, bytes, forged, _) = heard(&rt, &book_of(0), BY_THIRD);
    assert_same(&rt, &got, &Got::Datagram(40, at(3)));
    assert_same(&rt, &bytes.get(..40), &Some(BY_THIRD.as_slice()));
    assert_same(&rt, &forged, &0);
}

// A post that tells whether it was handed just one datagram, and which one.
#[derive(Drop)]
struct WantingPost<'s> {
    wanted: &'s [u8],
    was_handed: &'s AtomicBool,
}

impl<'s> Post for WantingPost<'s> {
    ghost posted = { λ post. None };

    fn fresh(&self) -> WantingPost<'s> {
        WantingPost {
            wanted: self.wanted,
            was_handed: self.was_handed,
        }
    }

    fn send<R: Wait>(&mut self, _rt: &R, bytes: &[u8], to: Peer) -> bool {
        let is_wanted = bytes == self.wanted && to == at(2);
        self.was_handed.store(is_wanted, Ordering::SeqCst);
        is_wanted
    }
}

// Whether these bytes go out where the ping is sent, also by a fresh post.
fn goes_out<R: Wait>(rt: &R, book: &RuleBook, wanted: &[u8]) -> bool {
    let was_handed = AtomicBool::new(false);
    let post = WantingPost {
        wanted,
        was_handed: &was_handed,
    };
    let mut post = SealedPost::new(post, book);
    let mut fresh = post.fresh();
    let is_taken = post.send(rt, PING, at(2)) && fresh.send(rt, PING, at(2));
    is_taken && was_handed.load(Ordering::SeqCst)
}

#[test]
fn what_goes_out_has_a_tag_by_the_first_key(rt: HostRuntime) -> Result<(), Fail> {
    let book = book()?;
    assert!(rt; goes_out(&rt, &book, BY_FIRST));
    assert!(rt; !goes_out(&rt, &book, BY_SECOND));
    assert!(rt; goes_out(&rt, &book_of(0), PING));
    Ok(())
}

// More than a datagram has.
#[test]
fn more_bytes_do_not_go_out(rt: HostRuntime) -> Result<(), Fail> {
    let book = book()?;
    let was_handed = AtomicBool::new(false);
    let post = WantingPost {
        wanted: BY_FIRST,
        was_handed: &was_handed,
    };
    let mut post = SealedPost::new(post, &book);
    assert!(rt; !post.send(&rt, &[0; 31], at(2)));
    assert!(rt; !was_handed.load(Ordering::SeqCst));
    Ok(())
}

// What was signed by a key that is no longer in force isn't heard from the next datagram on, and what goes out has a tag
// by the new one.
#[test]
fn keys_change_while_it_runs(rt: HostRuntime) -> Result<(), Fail> {
    let book = book()?;
    let line = OneDatagram {
        datagram: BY_FIRST,
        source: at(3),
    };
    let mut line = SealedLine::new(line, &book);
    let mut bytes = [0; 64];
    assert_same(
        &rt,
        &line.receive(&rt, &mut bytes),
        &Got::Datagram(24, at(3)),
    );
    let was_handed = AtomicBool::new(false);
    let post = WantingPost {
        wanted: BY_SECOND,
        was_handed: &was_handed,
    };
    let mut post = SealedPost::new(post, &book);
    assert!(rt; !post.send(&rt, PING, at(2)));
    let mut second = RingKeys::new();
    second.push(second_key()?);
    book.change(&rt, second, 0);
    assert_same(&rt, &line.receive(&rt, &mut bytes), &Got::Idle);
    assert!(rt; post.send(&rt, PING, at(2)));
    Ok(())
}
