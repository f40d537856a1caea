//! Words of a line as arguments, each with the fault that is told where it is missing or refused.

ghost use Rattle.std.specs.Prelude.{◌≡◌};
ghost use Rattle.swim_wire.specs.Address.{address_of};
ghost use Rattle.swim_wire.specs.Arguments.{TakesFrom, argument, nothing_left};
ghost use Rattle.swim_wire.specs.Ids.{id_of};

use crate::ids::Id;
use crate::peers::Peer;
use swim_text::Words;

/// Takes the next word, which is to be an id.
pub fn take_id<E: Copy>(words: &mut Words<'_>, fault: E) -> Result<Id, E>
    ensures { TakesFrom result words.new (argument fault id_of words.old) }
{
    match words.next() {
        Some(word) => Id::read(word).ok_or(fault),
        None => Err(fault),
    }
}

/// Takes the next word, which is to be an address.
pub fn take_peer<E: Copy>(words: &mut Words<'_>, fault: E) -> Result<Peer, E>
    ensures { TakesFrom result words.new (argument fault address_of words.old) }
{
    match words.next() {
        Some(word) => Peer::read(word).ok_or(fault),
        None => Err(fault),
    }
}

/// That no word is left.
pub fn nothing_left<E: Copy>(words: &Words<'_>, fault: E) -> Result<(), E>
    ensures { result ≡ nothing_left fault words.now }
{
    if words.is_empty() { Ok(()) } else { Err(fault) }
}
