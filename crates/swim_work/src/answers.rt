//! What the answer to a call of the node tells.

ghost use Rattle.std.specs.Prelude.{◌≡◌};
ghost use Rattle.swim_work.specs.Answers.{has_joined, has_started, message_in};

use swim_history::{Call, Reply};
use swim_node::{CallFault, Naming, Receipt};
use swim_wire::Message;

/// The message that was heard, where the node answered.
pub fn message_of<N: Naming>(answer: &Result<Receipt<N>, CallFault>) -> Option<Message>
    ensures { result ≡ message_in answer.now }
{
    match answer {
        Ok(receipt) => match &receipt.call {
            Call::Hear(_, message) => Some(*message),
            _ => None,
        },
        Err(_) => None,
    }
}

/// Whether a period started.
pub fn has_started<N: Naming>(answer: &Result<Receipt<N>, CallFault>) -> bool
    ensures { result ≡ has_started answer.now }
{
    match answer {
        Ok(receipt) => matches!(&receipt.reply, Reply::Started { .. }),
        Err(_) => false,
    }
}

/// Whether a member was joined.
pub fn has_joined<N: Naming>(answer: &Result<Receipt<N>, CallFault>) -> bool
    ensures { result ≡ has_joined answer.now }
{
    match answer {
        Ok(receipt) => matches!(&receipt.reply, Reply::Joined { .. }),
        Err(_) => false,
    }
}
