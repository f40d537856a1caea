//! What the posts of a life were handed.

ghost use Rattle.std.specs.Prelude.{None};
ghost use Rattle.swim_work.specs.Gates.{FitsInto};

use super::*;
use std::alloc::AllocError;

// A datagram that a post was handed.
#[derive(Drop)]
struct Sheet {
    bytes: Vec<u8>,
    to: Peer,
    is_taken: bool,
}

// A post that keeps what it was handed, and takes nothing to one address.
#[derive(Drop)]
struct KeepingPost {
    alloc: Global,
    refused: Peer,
    sheets: Vec<Sheet>,
}

impl KeepingPost {
    fn keep(&mut self, bytes: &[u8], to: Peer, is_taken: bool) -> Result<(), AllocError> {
        let bytes = bytes.to_vec(self.alloc)?;
        self.sheets.push(Sheet {
            bytes,
            to,
            is_taken,
        })?;
        Ok(())
    }
}

impl Post for KeepingPost {
    ghost posted = { λ p. None };

    fn fresh(&self) -> KeepingPost {
        KeepingPost {
            alloc: self.alloc,
            refused: self.refused,
            sheets: Vec::new(self.alloc),
        }
    }

    // Where it gets no memory it waits for good.
    fn send<R: Wait>(&mut self, rt: &R, bytes: &[u8], to: Peer) -> bool {
        let is_taken = to != self.refused;
        if self.keep(bytes, to, is_taken).is_err() {
            for _turn in rt.forever() {}
        }
        is_taken
    }
}

// A line with the ping, which it gives at once. It tells when it is asked again.
#[derive(Drop)]
struct OnePing<'s, K: Clock + Drop> {
    clock: K,
    was_given: bool,
    is_asked_again: &'s AtomicBool,
}

impl<'s, K: Clock + Drop> Line for OnePing<'s, K> {
    ghost received = { λ line. None };

    ghost listed = { λ line. None };

    fn receive<R: Wait>(&mut self, _rt: &R, bytes: &mut [u8]) -> Got
        ensures { FitsInto result bytes.new }
    {
        if self.was_given {
            set(self.is_asked_again);
            pause(&self.clock);
            return Got::Idle;
        }
        self.was_given = true;
        match bytes.get_mut(..24) {
            Some(front) => {
                front.copy_from_slice(&PING);
                Got::Datagram(24, at(2))
            }
            None => Got::Fault,
        }
    }

    fn list(&mut self, _members: &[Peer]) {}
}

// A ping is acked by the receiver's post. The ticker's is handed a ping, and a ping-req to the other member, as no ack
// came. One of the two goes to member 3, which no post can send to: the other is sent all the same, and one is counted.
#[test]
fn each_datagram_is_handed_over(rt: HostRuntime) -> Result<(), Fail> {
    let is_asked_again = AtomicBool::new(false);
    let board = TidingsBoard::new(0, 0);
    assert_handed(rt, rt.alloc(), &board, &is_asked_again)
}

fn assert_handed<'s, R: Threads + Wait + Clock + Abort + Send + Sync + Copy + Drop>(
    rt: R,
    alloc: Global,
    board: &'s TidingsBoard,
    is_asked_again: &'s AtomicBool,
) -> Result<(), Fail> {
    let line = OnePing {
        clock: rt,
        was_given: false,
        is_asked_again,
    };
    let post = KeepingPost {
        alloc,
        refused: at(3),
        sheets: Vec::new(alloc),
    };
    let door = NoDoor { clock: rt };
    let gates = (line, post, pace(rt, is_asked_again, 2), door);
    let opening = opening()?;
    let crew = crew(alloc, &opening, board, gates)?;
    let (past, crew) = live(&rt, alloc, opening, chooser(), 1000, crew);
    let Ok(past) = past else {
        return Err(Fail::new("a node"));
    };
    assert_same(&rt, &past.unsent(), &1);
    assert_acked(&rt, crew.first.post.sheets.as_slice());
    assert_probed(&rt, crew.second.post.sheets.as_slice());
    assert!(rt; crew.second.knock_post.sheets.is_empty());
    assert_same(&rt, &crew.second.knocks, &0);
    Ok(())
}

fn assert_acked<R: Abort>(rt: &R, sheets: &[Sheet]) {
    match sheets {
        [ack] => {
            assert!(rt; ack.bytes.as_slice() == ACK.as_slice());
            assert!(rt; ack.to == at(2) && ack.is_taken);
        }
        _ => panic!(rt; "an ack"),
    }
}

// The fourth byte is the kind of a datagram.
fn assert_probed<R: Abort>(rt: &R, sheets: &[Sheet]) {
    match sheets {
        [ping, request] => {
            assert!(rt; ping.bytes.get(3) == Some(&1) && request.bytes.get(3) == Some(&2));
            let is_first = ping.to == at(2) && ping.is_taken && request.to == at(3);
            let is_second = ping.to == at(3) && request.to == at(2) && request.is_taken;
            assert!(rt; is_first || is_second);
            assert!(rt; ping.is_taken != request.is_taken);
        }
        _ => panic!(rt; "a ping and a ping-req"),
    }
}
