//! Laws of knocks and of joins. Each is the contract of a function that does nothing, so that it stays proved.

ghost use Rattle.std.specs.Prelude.{◌≡◌, ◌≢◌, ◌+◌, ◌*◌, ◌%◌, ◌==◌, ◌<◌, ◌≤◌, ◌∷◌, ◌++◌, [], ℕ, List, Option, length};
ghost use Rattle.std.specs.Prelude.{◌&&◌, count_by, min, nat_lt, true};
ghost use Rattle.swim_history.specs.declared.rows.Row.{Row};
ghost use Rattle.swim_history.specs.declared.rows.RowState.TheVariants.{Failed};
ghost use Rattle.swim_history.specs.Changes.{IsAscending};
ghost use Rattle.swim_history.specs.Rows.{row_at};
ghost use Rattle.swim_rejoin.specs.Believing.{believed, tells};
ghost use Rattle.swim_rejoin.specs.Failed.{is_failed, verdict_in};
ghost use Rattle.swim_rejoin.specs.Histories.{Event, is_known, last_joined, last_knocks, last_verdict, table_in, times};
ghost use Rattle.swim_rejoin.specs.Histories.Event.{Looked, Ruled};
ghost use Rattle.swim_rejoin.specs.Knocking.{Start, at_start, is_due, knocked_by, since_due, steadily, whose_turn};
ghost use Rattle.swim_rejoin.specs.Turns.{IsNext, StaysFailed, was_knocked_at};
ghost use Rattle.swim_wire.specs.Address.{Address};
ghost use Rattle.swim_wire.specs.Ids.{has};
ghost use Rattle.swim_wire.specs.Messages.{Message};
ghost use Rattle.swim_wire.specs.declared.messages.Kind.TheVariants.{Ping};

/// Who is joined again is the sender, and failed by the table that was last looked at; the datagram is from that row's
/// address, and is the sender's ack of one of the last 64 knocks at it, which was sent after the verdict.
pub fn a_failed_member_is_joined()
    ensures row { (rejoin me : ℕ) (h : List Event) (m : Message) (from : Address) (row : Row)
        → believed rejoin me h m from ≡ Some row → row_at (table_in h) m.sender ≡ Some row }
    ensures failed { (rejoin me : ℕ) (h : List Event) (m : Message) (from : Address) (row : Row)
        → believed rejoin me h m from ≡ Some row → is_failed row ≡ true }
    ensures address { (rejoin me : ℕ) (h : List Event) (m : Message) (from : Address) (row : Row)
        → believed rejoin me h m from ≡ Some row → row.peer ≡ from }
    ensures told { (rejoin me : ℕ) (h : List Event) (m : Message) (from : Address) (row : Row)
        → believed rejoin me h m from ≡ Some row → tells m.kind me (last_knocks m.sender h) m ≡ true }
    ensures later { (rejoin me : ℕ) (h : List Event) (m : Message) (from : Address) (row : Row) (verdict : ℕ)
        → believed rejoin me h m from ≡ Some row → row.state ≡ Failed verdict → verdict < m.number }
{}

/// A failed member that answers, from its row's address, one of the last 64 knocks at it that was sent after the verdict
/// is joined again, if there were enough knocks at it since.
pub fn who_answers_a_knock_is_joined()
    ensures { (rejoin me : ℕ) (h : List Event) (m : Message) (row : Row) (verdict : ℕ) → 0 < rejoin
        → row_at (table_in h) m.sender ≡ Some row → row.state ≡ Failed verdict → verdict < m.number
        → tells m.kind me (last_knocks m.sender h) m ≡ true
        → times m.sender h ≤ count_by (nat_lt verdict) (last_knocks m.sender h)
        → believed rejoin me h m row.peer ≡ Some row }
{}

/// No ping joins anybody, of whatever age it is and wherever it comes from.
pub fn no_ping_is_believed()
    ensures { (rejoin me : ℕ) (h : List Event) (m : Message) (from : Address) → m.kind ≡ Ping
        → believed rejoin me h m from ≡ None }
{}

/// No ack joins anybody whose number isn't above the verdict's. So none that was recorded before the verdict does, as
/// long as no number is used twice.
pub fn a_recorded_ack_is_not_believed()
    ensures { (rejoin me : ℕ) (h : List Event) (m : Message) (from : Address) (row : Row) (verdict : ℕ)
        → row_at (table_in h) m.sender ≡ Some row → row.state ≡ Failed verdict → m.number ≤ verdict
        → believed rejoin me h m from ≡ None }
{}

/// A message from an address that isn't the row's of its sender is never believed.
pub fn a_stranger_is_not_believed()
    ensures { (rejoin me : ℕ) (h : List Event) (m : Message) (from : Address) (row : Row)
        → row_at (table_in h) m.sender ≡ Some row → row.peer ≢ from → believed rejoin me h m from ≡ None }
{}

/// Who is joined again was knocked at since the verdict as many times as it has to wait for: at least once.
pub fn who_waits_is_knocked_at()
    ensures { (rejoin me : ℕ) (h : List Event) (m : Message) (from : Address) (row : Row) (verdict : ℕ)
        → believed rejoin me h m from ≡ Some row → row.state ≡ Failed verdict
        → times m.sender h ≤ count_by (nat_lt verdict) (last_knocks m.sender h) }
{}

/// A member waits for 1 to 64 knocks since the verdict: for twice as many as the last time where it is judged within 16
/// periods of a join, and for one after 256 periods without a verdict.
pub fn waits_double_up_to_64()
    ensures least { (id : ℕ) (h : List Event) → 1 ≤ times id h }
    ensures most { (id : ℕ) (h : List Event) → times id h ≤ 64 }
    ensures doubled { (id number joined : ℕ) (rows : List Row) (h : List Event) → is_known id h ≡ true
        → verdict_in rows id ≡ Some number → last_verdict id h ≢ Some number → last_joined id h ≡ Some joined
        → joined < number → number ≤ joined + 16 → times id (Looked rows ∷ h) ≡ min 64 (2 * times id h) }
    ensures set_back { (id number joined shown : ℕ) (rows : List Row) (h : List Event)
        → verdict_in rows id ≡ Some number → last_verdict id h ≡ Some shown → last_joined id h ≡ Some joined
        → joined + 256 < number → shown + 256 < number → times id (Looked rows ∷ h) ≡ 1 }
{}

/// With a rejoin of 0 nobody is knocked at, and nobody joined again.
pub fn with_0_nothing_happens()
    ensures knock { (h : List Start) (rows : List Row) → knocked_by 0 h rows ≡ None }
    ensures join { (me : ℕ) (h : List Event) (m : Message) (from : Address) → believed 0 me h m from ≡ None }
{}

/// A rejoin of 0 forgets: the starts are counted anew behind it, and whom a message joins later goes by what happened
/// since alone.
pub fn a_0_forgets()
    ensures starts { (h : List Start) (rows : List Row) → since_due (at_start 0 rows ∷ h) ≡ 0 }
    ensures joins { (rejoin me : ℕ) (later before : List Event) (m : Message) (from : Address)
        → believed rejoin me (later ++ Ruled 0 ∷ before) m from ≡ believed rejoin me (later ++ Ruled 0 ∷ []) m from }
{}

/// Where each start has the same rejoin, each such start has a knock: that one, and no other, is due.
pub fn a_steady_rejoin_knocks_at_each_such_start()
    ensures { (rejoin : ℕ) (before : List (List Row))
        → is_due rejoin (steadily rejoin before []) ≡ (nat_lt 0 rejoin && (length before + 1) % rejoin == 0) }
{}

/// Of rows that ascend by id, whose turn it is is the next failed member by id behind the one that was knocked at last,
/// and behind the highest again the lowest: on the way round to it no failed member is passed over.
pub fn the_next_by_id_has_its_turn()
    ensures { (last : Option ℕ) (rows : List Row) (id : ℕ) (row next : Row) → IsAscending rows
        → row_at rows id ≡ Some row → is_failed row ≡ true → whose_turn last rows ≡ Some next
        → IsNext id last next.id }
{}

/// Each failed member has its turn: who is failed at so many starts in a row as there are failed members, times N, was
/// knocked at by one of these, if N was the same at all of them. Before them it may have changed.
pub fn each_failed_member_has_its_turn()
    ensures { (rejoin id : ℕ) (ids : List ℕ) (recent : List (List Row)) (before : List Start)
        → 0 < rejoin → has ids id ≡ true
        → StaysFailed id ids recent → length ids * rejoin ≤ length recent
        → was_knocked_at id rejoin recent before ≡ true }
{}
