//! When members were last heard.

ghost use Rattle.std.specs.Prelude.{◌≡◌, [], ◌∷◌, List};
ghost use Rattle.swim_history.specs.declared.entries.Entry.{Entry};
ghost use Rattle.swim_history.specs.Setting.{Setting, IsSetting};
ghost use Rattle.swim_history.specs.Run.{IsRun};
ghost use Rattle.swim_metrics.specs.LastHeard.{forgotten, heard_at, last_heard, noted, rows_then, Tell};

use arrayvec::ArrayVec;
use std::marker::Model;
use swim_history::{Call, KNOWN_MEMBERS, Reply};
use swim_wire::Id;

/// The number of the period in which a member was last heard.
#[derive(Clone, Copy, Debug, Default, PartialEq, Eq)]
pub struct LastHearing {
    pub member: Id,
    pub number: u64,
}

/// The last hearings, the newest first.
type HearingRows = ArrayVec<LastHearing, KNOWN_MEMBERS>;

/// When each member was last heard in a life, as far as it was and wasn't removed since, by the entries of that life,
/// read one by one. A contract sees the last hearings, the newest first.
#[derive(Drop)]
pub struct Hearings {
    rows: HearingRows,
}

impl Model for Hearings {
    ghost use Rattle.std.specs.Prelude.{List};
    ghost use Rattle.swim_metrics.specs.declared.hearings.LastHearing.{LastHearing};
    ghost use Rattle.swim_metrics.specs.LastHeard.{AreDifferent};

    ghost Value = { List LastHearing };

    ghost view = { λ h. h.rows.items };

    ghost invariant = { λ h. AreDifferent h.rows.items };
}

impl Hearings {
    /// A life begins, in which nobody was heard yet. It takes no memory.
    pub fn new() -> Hearings
        ensures { (o : Setting) → Tell result o [] }
    {
        Hearings {
            rows: ArrayVec::new(),
        }
    }

    /// Goes one entry on. Where the entries are those of a run, what is held then is what the run's entries say.
    pub fn read(&mut self, call: &Call, reply: &Reply)
        ensures { (o : Setting) (h : List Entry) (e : Entry) → IsSetting o → IsRun o (e ∷ h) →
            e.call ≡ call.now → e.reply ≡ reply.now → Tell self.old o h → Tell self.new o (e ∷ h) }
    {
        read(&mut self.rows, call, reply);
    }

    /// The number of the period in which an ack of a member last came in time, if one did in this life since the member
    /// was last removed.
    pub fn last(&self, member: Id) -> Option<u64>
        ensures value { result ≡ heard_at self.now member }
        ensures told { (o : Setting) (h : List Entry) → Tell self.now o h → result ≡ last_heard o h member }
    {
        last_of(self.rows.as_slice(), member)
    }
}

/// Goes one entry on.
fn read(rows: &mut HearingRows, call: &Call, reply: &Reply)
    ensures { rows.new.items ≡ rows_then call.now reply.now rows.old.items }
{
    match (call, reply) {
        (Call::Hear(_, ack), Reply::Heard) => note(rows, ack.target, ack.number.get()),
        (Call::Remove(member), Reply::Removed) => forget(rows, *member),
        _ => {}
    }
}

/// Notes that a member was heard in a period. In a run there is always room.
fn note(rows: &mut HearingRows, member: Id, number: u64)
    ensures { rows.new.items ≡ noted member number rows.old.items }
{
    forget(rows, member);
    if !rows.is_full() {
        rows.insert(0, LastHearing { member, number });
    }
}

/// Takes the hearing of a member out, if there is one.
fn forget(rows: &mut HearingRows, member: Id)
    ensures { rows.new.items ≡ forgotten member rows.old.items }
{
    rows.retain(|row| row.member != member);
}

/// The number of the period in which a member was last heard.
fn last_of(rows: &[LastHearing], member: Id) -> Option<u64>
    ensures { result ≡ heard_at rows.now member }
{
    rows.iter()
        .find(|row| row.member == member)
        .map(|row| row.number)
}
