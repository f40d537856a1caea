ghost use Rattle.std.specs.Prelude.{◌≡◌, ◌<◌, ◌≤◌, ◌∷◌, [], None, Some, length};
ghost use Rattle.swim_history.specs.declared.calls.Call.TheVariants.{Tick, Join, Remove};
ghost use Rattle.swim_history.specs.declared.entries.Choice.TheVariants.{Nothing};
ghost use Rattle.swim_history.specs.declared.replies.Refusal.TheVariants.{Spent};
ghost use Rattle.swim_history.specs.declared.replies.Reply.TheVariants.{Quiet, Joined, Removed, Refused};
ghost use Rattle.swim_history.specs.Run.{Continues};
ghost use Rattle.swim_history_tests.specs.Worked.Histories.{at, entry, round, starting, asking};
ghost use Rattle.swim_history_tests.specs.Worked.Histories.{two_members, first_start};

use super::{address, assert_same, id, opening};
use arrayvec::ArrayVec;
use std::alloc::Global;
use std::process::Abort;
use swim_history::*;
use swim_wire::{Id, Version};

fn assert_judged<R: Abort>(rt: &R, journal: &Journal, expected: &[Judged]) {
    match journal.judgements() {
        Ok(judgements) => assert_same(rt, &judgements.as_slice(), &expected),
        Err(_) => panic!(rt; "judgements"),
    }
}

fn assert_entry<R: Abort>(rt: &R, journal: &Journal, place: u32, expected: Option<&Entry>) {
    assert_same(rt, &journal.entry(place).as_ref(), &expected);
}

// It has so many entries, and judged nobody.
fn assert_counts<R: Abort>(rt: &R, journal: &Journal, count: u32) {
    assert_same(rt, &journal.len(), &count);
    assert_same(rt, &journal.is_empty(), &(count == 0));
    assert_same(rt, &journal.judged_count(), &0);
}

#[test]
fn begins_empty(rt: HostRuntime) {
    assert_empty(&rt, Journal::new(rt.alloc(), opening(&rt, 0)));
}

fn assert_empty<R: Abort>(rt: &R, journal: Journal) {
    assert_counts(rt, &journal, 0);
    assert_entry(rt, &journal, 0, None);
    assert_judged(rt, &journal, &[]);
    assert_same(rt, &journal.opening().period(), &3);
    assert_room(rt, journal);
}

fn assert_room<R: Abort>(rt: &R, journal: Journal) {
    let mut journal = journal;
    assert!(rt; journal.room().is_ok());
}

// A tick that is refused because the numbers are used up.
fn refused(number: u32) -> Entry
    ensures { result ≡ record { seat = 0; number = number; call = Tick; choice = Nothing; reply = Refused Spent } }
{
    Entry {
        seat: 0,
        number,
        call: Call::Tick,
        choice: Choice::Nothing,
        reply: Reply::Refused(Refusal::Spent),
    }
}

#[test]
fn holds_its_entries_in_order(rt: HostRuntime) {
    let mut journal = Journal::new(rt.alloc(), opening(&rt, u64::MAX));
    append(&rt, &mut journal, &refused(0));
    append(&rt, &mut journal, &refused(1));
    assert_two_refused(&rt, &journal);
}

fn assert_two_refused<R: Abort>(rt: &R, journal: &Journal) {
    assert_counts(rt, journal, 2);
    assert_entry(rt, journal, 0, Some(&refused(0)));
    assert_entry(rt, journal, 1, Some(&refused(1)));
    assert_entry(rt, journal, 2, None);
    assert_judged(rt, journal, &[]);
}

// Of member 1, with one relay, a timeout of one tick and a period of three. Members 2 and 3 are up.
fn two_members<R: Abort>(rt: &R) -> Opening
    ensures { result ≡ two_members }
{
    let members = [(id(2), address(2)), (id(3), address(3))];
    match Opening::check(id(1), 1, 1, 3, &members, 0, Version::One) {
        Ok(opening) => opening,
        Err(_) => panic!(rt; "an opening"),
    }
}

// An entry of the one caller.
pub(super) fn entry(number: u32, call: Call, reply: Reply, choice: Choice) -> Entry
    ensures { result ≡ entry number call reply choice }
{
    Entry {
        seat: 0,
        number,
        call,
        choice,
        reply,
    }
}

// A start, by which a member may be judged and another is probed.
pub(super) fn start(
    place: u32,
    judged: Option<Id>,
    target: u8,
    number: u64,
    choice: Choice,
) -> Entry
    requires { 0 < target }
    ensures { result ≡ starting place judged target number choice }
{
    let probe = Some(Probe {
        target: id(u32::from(target)),
        peer: address(target),
        number,
    });
    entry(place, Call::Tick, Reply::Started { judged, probe }, choice)
}

// The first start, which draws the order of a round.
pub(super) fn first_start() -> Entry
    ensures { result ≡ first_start }
{
    let mut order = ArrayVec::new();
    order.push(id(2));
    order.push(id(3));
    start(0, None, 2, 1, Choice::Round(order))
}

// The second start, by which member 2 is judged and member 3 probed.
fn second_start() -> Entry
    ensures { result ≡ starting 3 (Some 2) 3 2 Nothing }
{
    start(3, Some(id(2)), 3, 2, Choice::Nothing)
}

// Member 3 is asked to ping member 2.
fn ask() -> Entry
    ensures { result ≡ asking 1 2 1 (record { id = 3; peer = at 3 } ∷ []) }
{
    let mut relays = ArrayVec::new();
    relays.push(Relay {
        id: id(3),
        peer: address(3),
    });
    let reply = Reply::Asked {
        target: id(2),
        peer: address(2),
        number: 1,
        relays,
    };
    entry(1, Call::Tick, reply, Choice::Nothing)
}

pub(super) fn append<R: Abort>(rt: &R, journal: &mut Journal, entry: &Entry)
    requires count { length journal.old.past < u32.MAX }
    requires continues { Continues journal.old.opening journal.old.past entry.now }
    ensures opening { journal.new.opening ≡ journal.old.opening }
    ensures past { journal.new.past ≡ entry.now ∷ journal.old.past }
{
    assert!(rt; journal.room().is_ok());
    journal.add(entry);
}

// Member 2 is probed, and judged as no ack of it comes. Then member 3 is probed, it is removed, and member 4
// joins.
pub(super) fn played<R: Abort>(rt: &R, alloc: Global) -> Journal {
    let mut journal = Journal::new(alloc, two_members(rt));
    append(rt, &mut journal, &first_start());
    append(rt, &mut journal, &ask());
    append(
        rt,
        &mut journal,
        &entry(2, Call::Tick, Reply::Quiet, Choice::Nothing),
    );
    append(rt, &mut journal, &second_start());
    let removal = Call::Remove(id(3));
    append(
        rt,
        &mut journal,
        &entry(4, removal, Reply::Removed, Choice::Nothing),
    );
    let joining = Call::Join(id(4), address(4));
    append(
        rt,
        &mut journal,
        &entry(5, joining, Reply::Joined { place: 0 }, Choice::Nothing),
    );
    journal
}

fn row(member: u8, state: RowState) -> Row
    requires { 0 < member }
{
    Row {
        id: id(u32::from(member)),
        peer: address(member),
        state,
    }
}

fn assert_row<R: Abort>(rt: &R, journal: &Journal, member: u32, expected: Option<Row>)
    requires { 0 < member }
{
    assert_same(rt, &journal.row(id(member)), &expected);
}

// What the run that is played makes, worked by hand: member 2 failed in period 1, and member 4 is up.
#[test]
fn keeps_the_table(rt: HostRuntime) {
    assert_rows(&rt, &played(&rt, rt.alloc()));
}

fn assert_rows<R: Abort>(rt: &R, journal: &Journal) {
    assert_table(rt, journal);
    assert_row(rt, journal, 2, Some(row(2, RowState::Failed(1))));
    assert_row(rt, journal, 4, Some(row(4, RowState::Up)));
    assert_row(rt, journal, 3, None);
}

fn assert_table<R: Abort>(rt: &R, journal: &Journal) {
    let rows = [row(2, RowState::Failed(1)), row(4, RowState::Up)];
    assert_same(rt, &journal.rows().as_slice(), &rows.as_slice());
    assert_same(rt, &journal.known(), &2);
}

#[test]
fn keeps_numbers_and_judgements(rt: HostRuntime) {
    assert_numbers_and_judgements(&rt, &played(&rt, rt.alloc()));
}

fn assert_numbers_and_judgements<R: Abort>(rt: &R, journal: &Journal) {
    let judged = Judged {
        member: id(2),
        number: 1,
    };
    assert_same(
        rt,
        &(journal.last_number(), journal.judged_count()),
        &(2, 1),
    );
    assert_judged(rt, journal, &[judged]);
}

fn assert_probed<R: Abort>(rt: &R, journal: &Journal, expected: &[Probed]) {
    match journal.probes() {
        Ok(probes) => assert_same(rt, &probes.as_slice(), &expected),
        Err(_) => panic!(rt; "probes"),
    }
}

#[test]
fn tells_its_probes(rt: HostRuntime) {
    let first = Probed {
        number: 1,
        member: id(2),
    };
    let second = Probed {
        number: 2,
        member: id(3),
    };
    assert_probed(&rt, &played(&rt, rt.alloc()), &[first, second]);
}

#[test]
fn gives_entries_back(rt: HostRuntime) {
    assert_entries(&rt, &played(&rt, rt.alloc()));
}

fn assert_entries<R: Abort>(rt: &R, journal: &Journal) {
    assert_entry(rt, journal, 0, Some(&first_start()));
    assert_entry(rt, journal, 1, Some(&ask()));
    assert_entry(rt, journal, 6, None);
}

fn assert_called<R: Abort>(rt: &R, journal: &Journal, place: u32, expected: Option<&Called>) {
    assert_same(rt, &journal.called(place).as_ref(), &expected);
}

// An entry without what was drawn for it.
fn called_of(entry: Entry) -> Called {
    Called {
        seat: entry.seat,
        number: entry.number,
        call: entry.call,
        reply: entry.reply,
    }
}

#[test]
fn gives_calls_and_replies_back(rt: HostRuntime) {
    assert_calls(&rt, &played(&rt, rt.alloc()));
}

fn assert_calls<R: Abort>(rt: &R, journal: &Journal) {
    assert_called(rt, journal, 0, Some(&called_of(first_start())));
    assert_called(rt, journal, 1, Some(&called_of(ask())));
    assert_called(rt, journal, 6, None);
}
