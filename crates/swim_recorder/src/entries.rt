//! The calls of a journal, as its followers read them.

ghost use Rattle.std.specs.Prelude.{◌≡◌, ◌≤◌, IfNone, IfSome, Some, length, slice_get};
ghost use Rattle.swim_node.specs.Following.{filings_of};

use swim_history::{Called, Journal, Kept};
use swim_node::Followed;

/// The call at a place of a journal, counted from 0 at the oldest. There is none beyond the journal's end.
pub(crate) fn call_at(journal: &Journal, place: usize) -> Option<Followed>
    ensures some { IfSome result (λ f. slice_get (filings_of journal.now.past) place ≡ Some f) }
    ensures none { IfNone result (length journal.now.past ≤ place) }
{
    if place >= journal.len() as usize {
        return None;
    }
    let position = place as u32;
    let Some(called) = journal.called(position) else {
        return None;
    };
    let Called {
        seat,
        number,
        call,
        reply,
    } = called;
    let kept = Kept {
        position,
        number,
        call,
        reply,
    };
    Some(Followed { seat, kept })
}
