ghost use Rattle.std.specs.Prelude.{◌≡◌, ◌<◌, [], ◌∷◌};

use std::fmt::Debug;
use std::process::Abort;
use swim_history::*;
use swim_wire::{Id, Peer, Version};

mod changing;
mod drawn_laws;
mod gaps;
mod journals;
mod openings;
mod replies;

// The two are the same. A call of this is proved at once, and an `assert_eq!` in some seconds.
fn assert_same<T: PartialEq + Debug, R: Abort>(rt: &R, left: &T, right: &T) {
    assert_eq!(rt; *left, *right);
}

fn id(value: u32) -> Id
    requires { 0 < value }
    ensures { result ≡ value }
{
    match Id::new(value) {
        Some(id) => id,
        None => unreachable!(),
    }
}

fn address(last: u8) -> Peer
    ensures { result ≡ record { ip = 10 ∷ 0 ∷ 0 ∷ last ∷ []; port = 7000 } }
{
    Peer {
        ip: [10, 0, 0, last],
        port: 7000,
    }
}

// Of member 1, with two relays, a timeout of one tick and a period of three.
fn opening<R: Abort>(rt: &R, last: u64) -> Opening
    ensures { (result.period ≡ 3) × (result.last ≡ last) }
{
    match Opening::check(id(1), 2, 1, 3, &[(id(2), address(2))], last, Version::One) {
        Ok(opening) => opening,
        Err(_) => panic!(rt; "an opening"),
    }
}
