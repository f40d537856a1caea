//! What a worker does about the answer to a call of the node: it sends the datagrams of the reply.

ghost use Rattle.swim_history.specs.Sends.{sends_of};
ghost use Rattle.swim_work.specs.Finished.{IsFinished};
ghost use Rattle.swim_work.specs.Posts.{ArePosted};

use crate::counts::{Counts, Why};
use crate::posts::Post;
use std::sync::Wait;
use swim_history::{Opening, Reply, sends};
use swim_node::{CallFault, Naming, Receipt};
use swim_wire::{Message, Peer, encode};

/// Sends the datagrams of a reply, after the lock was given back; or counts why there is no reply. Why the worker ends,
/// if it does.
pub fn finish<N: Naming, R: Wait, O: Post>(
    rt: &R,
    post: &mut O,
    opening: &Opening,
    answer: Result<Receipt<N>, CallFault>,
    counts: &mut Counts,
) -> Option<Why>
    ensures { IsFinished O.posted answer (λ receipt. sends_of receipt.reply opening.now)
        post.old counts.old result post.new counts.new }
{
    match answer {
        Ok(receipt) => {
            let unsent = send_all(rt, post, opening, &receipt.reply);
            counts.unsent = counts.unsent.saturating_add(unsent);
            None
        }
        Err(CallFault::Wire(_)) => {
            counts.wire = counts.wire.saturating_add(1);
            None
        }
        Err(CallFault::NoMemory) => {
            counts.refused = counts.refused.saturating_add(1);
            None
        }
        Err(CallFault::JournalFull) => Some(Why::JournalFull),
    }
}

/// Sends the datagrams of a reply, each once, in order. Returns how many couldn't be sent.
fn send_all<R: Wait, O: Post>(rt: &R, post: &mut O, opening: &Opening, reply: &Reply) -> u64
    ensures { ArePosted (sends_of reply.now opening.now) (O.posted post.old) (O.posted post.new) result }
{
    match reply {
        Reply::Send { peer, message } => send_each(rt, post, &[(*peer, *message)]),
        _ => send_listed(rt, post, opening, reply),
    }
}

/// Sends them from a list.
// Kept out of line: the list is large, and most replies send one message or none.
#[inline(never)]
fn send_listed<R: Wait, O: Post>(rt: &R, post: &mut O, opening: &Opening, reply: &Reply) -> u64
    ensures { ArePosted (sends_of reply.now opening.now) (O.posted post.old) (O.posted post.new) result }
{
    send_each(rt, post, sends(reply, opening).as_slice())
}

/// Sends datagrams, each once, in order. How many couldn't be sent.
#[tactic(auto, using(crate::proofs::Posting::none_posted, crate::proofs::Posting::one_more_posted))]
fn send_each<R: Wait, O: Post>(rt: &R, post: &mut O, messages: &[(Peer, Message)]) -> u64
    ensures { ArePosted messages.now (O.posted post.old) (O.posted post.new) result }
{
    let mut unsent = 0u64;
    for (peer, message) in messages {
        let is_taken = post.send(rt, encode(message).as_slice(), *peer);
        unsent += u64::from(!is_taken);
    }
    unsent
}
