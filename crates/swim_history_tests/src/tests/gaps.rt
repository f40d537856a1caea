ghost use Rattle.std.specs.Prelude.{◌≡◌, ◌<◌, ◌^◌, [], ◌∷◌, Some, length, reverse};
ghost use Rattle.swim_history.specs.Run.{IsRun};
ghost use Rattle.swim_history_tests.specs.Worked.Histories.{round, asking, starting};
ghost use Rattle.swim_history_tests.specs.Worked.Gaps.{quiet, heard, no_relays, four_periods};
ghost use Rattle.swim_history_tests.specs.Worked.Gaps.{joiner, next_round, joined};
ghost use Rattle.swim_history_tests.specs.Worked.Gaps.{removal, rejoiner, rejoined};
ghost use Rattle.swim_history_tests.specs.Worked.Returns.{leaving, returning, returned};
ghost use Rattle.swim_history_tests.specs.Worked.Returns.{judged_returning, judged_and_back};

use super::journals::{append, entry, first_start, played, start};
use super::{address, assert_same, id};
use arrayvec::ArrayVec;
use std::alloc::Global;
use std::process::Abort;
use swim_history::*;
use swim_wire::{Id, Kind, Message, PeriodNumber, Version};

// Of member 1, with no relays, a timeout of one tick and a period of three. Members 2 and 3 are up.
fn no_relays<R: Abort>(rt: &R) -> Opening
    ensures { result ≡ no_relays }
{
    let members = [(id(2), address(2)), (id(3), address(3))];
    match Opening::check(id(1), 0, 1, 3, &members, 0, Version::One) {
        Ok(opening) => opening,
        Err(_) => panic!(rt; "an opening"),
    }
}

fn quiet(place: u32) -> Entry
    ensures { result ≡ quiet place }
{
    entry(place, Call::Tick, Reply::Quiet, Choice::Nothing)
}

// An ack of the aim.
fn heard(place: u32, target: u8, number: u64) -> Entry
    requires target { 0 < target }
    requires number { 0 < number }
    ensures { result ≡ heard place target number }
{
    let member = id(u32::from(target));
    let ack = Message {
        version: Version::One,
        kind: Kind::Ack,
        sender: member,
        initiator: id(1),
        target: member,
        number: period_number(number),
        at: None,
    };
    let call = Call::Hear(address(target), ack);
    entry(place, call, Reply::Heard, Choice::Nothing)
}

fn period_number(number: u64) -> PeriodNumber
    requires { 0 < number }
    ensures { result ≡ number }
{
    match PeriodNumber::new(number) {
        Some(number) => number,
        None => unreachable!(),
    }
}

// A round of two members begins.
fn round(first: u8, second: u8) -> Choice
    requires first { 0 < first }
    requires second { 0 < second }
    ensures { result ≡ round (first ∷ second ∷ []) }
{
    let mut order = ArrayVec::new();
    order.push(id(u32::from(first)));
    order.push(id(u32::from(second)));
    Choice::Round(order)
}

// The journal of a run of that opening, oldest entry first.
fn replayed<R: Abort>(rt: &R, alloc: Global, entries: &[Entry]) -> Journal
    requires run { IsRun no_relays (reverse entries.now) }
    requires count { length entries.now < 2 ^ 32 }
{
    let mut journal = Journal::new(alloc, no_relays(rt));
    for entry in entries {
        append(rt, &mut journal, entry);
    }
    journal
}

fn assert_gap<R: Abort>(rt: &R, journal: &Journal, member: u32, expected: Option<Gap>)
    requires { 0 < member }
{
    assert_same(rt, &journal.widest_gap(id(member)), &expected);
}

// Four periods whose aims answer: they probe 2, 3, 3 and 2.
fn four_periods() -> [Entry; 13]
    ensures { result ≡ reverse four_periods }
{
    [
        first_start(),
        heard(1, 2, 1),
        quiet(2),
        quiet(3),
        start(4, None, 3, 2, Choice::Nothing),
        heard(5, 3, 2),
        quiet(6),
        quiet(7),
        start(8, None, 3, 3, round(3, 2)),
        heard(9, 3, 3),
        quiet(10),
        quiet(11),
        start(12, None, 2, 4, Choice::Nothing),
    ]
}

#[test]
fn finds_the_widest_gaps(rt: HostRuntime) {
    let journal = replayed(&rt, rt.alloc(), &four_periods());
    assert_gap(&rt, &journal, 2, Some(Gap { a: 1, b: 4, n: 2 }));
    assert_gap(&rt, &journal, 3, Some(Gap { a: 2, b: 3, n: 2 }));
    assert_gap(&rt, &journal, 4, None);
}

// Member 4 joins in the first period, so that it is probed next.
fn joiner() -> Entry
    ensures { result ≡ joiner }
{
    let call = Call::Join(id(4), address(4));
    entry(4, call, Reply::Joined { place: 1 }, Choice::Nothing)
}

// The start of the second round, with member 4 in it.
fn next_round() -> Entry
    ensures { result ≡ next_round }
{
    let mut order = ArrayVec::new();
    order.push(id(2));
    order.push(id(4));
    order.push(id(3));
    start(13, None, 2, 4, Choice::Round(order))
}

// Four periods that probe 2, 4, 3 and 2.
fn joined() -> [Entry; 14]
    ensures { result ≡ reverse joined }
{
    [
        first_start(),
        heard(1, 2, 1),
        quiet(2),
        quiet(3),
        joiner(),
        start(5, None, 4, 2, Choice::Nothing),
        heard(6, 4, 2),
        quiet(7),
        quiet(8),
        start(9, None, 3, 3, Choice::Nothing),
        heard(10, 3, 3),
        quiet(11),
        quiet(12),
        next_round(),
    ]
}

#[test]
fn counts_joiners(rt: HostRuntime) {
    let journal = replayed(&rt, rt.alloc(), &joined());
    assert_gap(&rt, &journal, 2, Some(Gap { a: 1, b: 4, n: 3 }));
}

fn removal() -> Entry
    ensures { result ≡ removal }
{
    let call = Call::Remove(id(2));
    entry(5, call, Reply::Removed, Choice::Nothing)
}

fn rejoiner() -> Entry
    ensures { result ≡ rejoiner }
{
    let call = Call::Join(id(2), address(2));
    entry(6, call, Reply::Joined { place: 0 }, Choice::Nothing)
}

// Four periods that probe 2, 3, 2 and 3; in the second member 2 is removed and joins again.
fn rejoined() -> [Entry; 15]
    ensures { result ≡ reverse rejoined }
{
    [
        first_start(),
        heard(1, 2, 1),
        quiet(2),
        quiet(3),
        start(4, None, 3, 2, Choice::Nothing),
        removal(),
        rejoiner(),
        heard(7, 3, 2),
        quiet(8),
        quiet(9),
        start(10, None, 2, 3, round(2, 3)),
        heard(11, 2, 3),
        quiet(12),
        quiet(13),
        start(14, None, 3, 4, Choice::Nothing),
    ]
}

#[test]
fn finds_no_gap_of_a_rejoiner(rt: HostRuntime) {
    let journal = replayed(&rt, rt.alloc(), &rejoined());
    assert_gap(&rt, &journal, 2, None);
    assert_gap(&rt, &journal, 3, Some(Gap { a: 2, b: 4, n: 3 }));
}

fn leaving() -> Entry
    ensures { result ≡ leaving }
{
    let call = Call::Remove(id(2));
    entry(13, call, Reply::Removed, Choice::Nothing)
}

fn returning() -> Entry
    ensures { result ≡ returning }
{
    let call = Call::Join(id(2), address(2));
    entry(14, call, Reply::Joined { place: 0 }, Choice::Nothing)
}

// Six periods that probe 2, 3, 3, 2, 2 and 3; in the fourth member 2 is removed and joins again.
fn returned() -> [Entry; 22]
    ensures { result ≡ reverse returned }
{
    [
        first_start(),
        heard(1, 2, 1),
        quiet(2),
        quiet(3),
        start(4, None, 3, 2, Choice::Nothing),
        heard(5, 3, 2),
        quiet(6),
        quiet(7),
        start(8, None, 3, 3, round(3, 2)),
        heard(9, 3, 3),
        quiet(10),
        quiet(11),
        start(12, None, 2, 4, Choice::Nothing),
        leaving(),
        returning(),
        quiet(15),
        quiet(16),
        start(17, None, 2, 5, round(2, 3)),
        heard(18, 2, 5),
        quiet(19),
        quiet(20),
        start(21, None, 3, 6, Choice::Nothing),
    ]
}

#[test]
fn keeps_the_widest_gap_of_a_removed_member(rt: HostRuntime) {
    let journal = replayed(&rt, rt.alloc(), &returned());
    assert_gap(&rt, &journal, 2, Some(Gap { a: 1, b: 4, n: 2 }));
    assert_gap(&rt, &journal, 3, Some(Gap { a: 3, b: 6, n: 3 }));
}

fn silence(place: u32) -> Entry
    ensures { result ≡ asking place 2 4 [] }
{
    let reply = Reply::Asked {
        target: id(2),
        peer: address(2),
        number: 4,
        relays: ArrayVec::new(),
    };
    entry(place, Call::Tick, reply, Choice::Nothing)
}

// The start that judges member 2. A round of the one member that is left begins.
fn judging_start() -> Entry
    ensures { result ≡ starting 15 (Some 2) 3 5 (round (3 ∷ [])) }
{
    let mut order = ArrayVec::new();
    order.push(id(3));
    start(15, Some(id(2)), 3, 5, Choice::Round(order))
}

fn judged_returning() -> Entry
    ensures { result ≡ judged_returning }
{
    let call = Call::Join(id(2), address(2));
    entry(16, call, Reply::Joined { place: 1 }, Choice::Nothing)
}

// Six periods that probe 2, 3, 3, 2, 3 and 2; at the end of the fourth member 2 is judged, and it joins again.
fn judged_and_back() -> [Entry; 21]
    ensures { result ≡ reverse judged_and_back }
{
    [
        first_start(),
        heard(1, 2, 1),
        quiet(2),
        quiet(3),
        start(4, None, 3, 2, Choice::Nothing),
        heard(5, 3, 2),
        quiet(6),
        quiet(7),
        start(8, None, 3, 3, round(3, 2)),
        heard(9, 3, 3),
        quiet(10),
        quiet(11),
        start(12, None, 2, 4, Choice::Nothing),
        silence(13),
        quiet(14),
        judging_start(),
        judged_returning(),
        heard(17, 3, 5),
        quiet(18),
        quiet(19),
        start(20, None, 2, 6, Choice::Nothing),
    ]
}

#[test]
fn keeps_the_widest_gap_of_a_judged_member(rt: HostRuntime) {
    let journal = replayed(&rt, rt.alloc(), &judged_and_back());
    assert_gap(&rt, &journal, 2, Some(Gap { a: 1, b: 4, n: 2 }));
    assert_gap(&rt, &journal, 3, Some(Gap { a: 3, b: 5, n: 2 }));
}

// Member 2 is probed once, and judged; member 3 is probed once, and removed.
#[test]
fn finds_no_gap(rt: HostRuntime) {
    let journal = played(&rt, rt.alloc());
    for member in 1..5 {
        assert_gap(&rt, &journal, member, None);
    }
}
