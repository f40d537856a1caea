//! Where the bytes of one go who watches: a connection.

ghost use Rattle.std.specs.Prelude.{◌≡◌, [], ◌∷◌, ◌++◌, length, Some};
ghost use Rattle.swim_events.specs.Guests.{Takes};
ghost use Rattle.swim_devices.specs.Offers.{IsWithin};

use std::io;
use std::io::{ErrorKind, Read, Write};
use std::marker::Model;
use std::os::unix::net::UnixStream;
use std::sync::Arc;
use swim_events::{Offer, Outlet};
use swim_trail::Trail;

/// How many bytes that a watcher sends are thrown away at a time.
const THROWN_BYTES: usize = 512;

/// Where the bytes of one go who watches. The stream is one that doesn't wait. What comes from it is thrown away. A
/// contract sees what the system took, and each offer with its answer.
#[derive(Drop)]
pub struct StreamOutlet {
    stream: UnixStream,
    // The place of the connection, which it has as long as this stands.
    _place: Arc<()>,
    offers: Trail<Offer>,
}

impl Model for StreamOutlet {
    ghost use Rattle.std.specs.Prelude.{flat_map};
    ghost use Rattle.swim_devices.specs.Offers.{AtOutlet, taken_in};

    ghost Value = { AtOutlet };

    ghost view = { λ o. record { taken = flat_map taken_in o.offers.items; offers = o.offers.items } };
}

impl StreamOutlet {
    /// An outlet over a stream that doesn't wait, of a connection that has this place. It took nothing yet.
    pub(crate) fn new(stream: UnixStream, place: Arc<()>) -> StreamOutlet
        ensures { result ≡ record { taken = []; offers = [] } }
    {
        StreamOutlet {
            stream,
            _place: place,
            offers: Trail::new(),
        }
    }

    /// Offers the stream these bytes once, and notes what became of it. Nothing else does either.
    #[tactic(auto, using(crate::proofs::Offered::takes_more))]
    fn offer_once(&mut self, bytes: &[u8]) -> Offer
        ensures takes { Takes result bytes.now (Some self.old.taken) (Some self.new.taken) }
        ensures offered { self.new.offers ≡ self.old.offers ++ (result, bytes.now) ∷ [] }
    {
        let mut thrown = [0u8; THROWN_BYTES];
        let _read = self.stream.read(&mut thrown);
        let offer = offer_by(self.stream.write(bytes), bytes.len());
        self.offers.note(&offer, bytes);
        offer
    }
}

impl Outlet for StreamOutlet {
    ghost taken = { λ o. Some o.taken };

    ghost offers = { λ o. Some o.offers };

    fn offer(&mut self, bytes: &[u8]) -> Offer
        ensures takes { Takes result bytes.now (Some self.old.taken) (Some self.new.taken) }
        ensures offered { self.new.offers ≡ self.old.offers ++ (result, bytes.now) ∷ [] }
    {
        self.offer_once(bytes)
    }
}

/// What became of an offer of so many bytes, by what the write of them answered.
fn offer_by(written: io::Result<usize>, count: usize) -> Offer
    ensures { IsWithin result count }
{
    match written {
        Ok(taken) => Offer::Took(taken.min(count)),
        Err(fault) => match fault.kind() {
            ErrorKind::WouldBlock | ErrorKind::Interrupted => Offer::Full,
            _ => Offer::Gone,
        },
    }
}
