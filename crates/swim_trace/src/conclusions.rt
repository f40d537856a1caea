//! What is concluded of a probe after which its target was judged failed.

ghost use Rattle.std.specs.Prelude.{◌≡◌, filter, length};
ghost use Rattle.swim_trace.specs.Conclusions.{conclusion, first_contradicted, is_answer_of, is_ping, is_start_of};

use crate::acts::{Act, Deed, ProbeName};
use crate::fates::{Case, Fate, Way, is_passing};
use crate::legs::Leg;
use swim_wire::Kind;

/// What is concluded of a probe.
#[derive(Clone, Copy, Debug, PartialEq, Eq)]
pub enum Conclusion {
    /// More than one entry began a probe that is known by the same ids and number: which of them a datagram belongs to
    /// isn't known.
    Twofold,
    /// The datagram on this way came, and no entry of its sender's tells that it was sent.
    Contradicted(Leg),
    /// No file of the target is there.
    Missing,
    /// The target answered so many pings of the probe: it lived.
    Answered(usize),
    /// No ping of the probe came to the target, on so many paths.
    Unreached(usize),
}

/// What is concluded of a probe of whose datagrams this became.
pub fn conclusion_on(case: &Case<'_>, found: &[Way]) -> Conclusion
    ensures { result ≡ conclusion case.now.probe case.now.relays.now case.now.acts.now case.now.told.now found.now }
{
    if count_starts(case.acts, &case.probe) > 1 {
        return Conclusion::Twofold;
    }
    if let Some(leg) = first_contradicted(found) {
        return Conclusion::Contradicted(leg);
    }
    if !case.told.contains(&case.probe.target) {
        return Conclusion::Missing;
    }
    match count_answers(case.acts, &case.probe) {
        0 => Conclusion::Unreached(case.relays.len().saturating_add(1)),
        count => Conclusion::Answered(count),
    }
}

/// The first of these ways whose datagram came and wasn't sent.
fn first_contradicted(ways: &[Way]) -> Option<Leg>
    ensures { result ≡ first_contradicted ways.now }
{
    match ways {
        [] => None,
        [first, more @ ..] => match first.fate {
            Fate::Contradicted => Some(first.leg),
            _ => first_contradicted(more),
        },
    }
}

/// How many entries began that probe.
fn count_starts(acts: &[Act], probe: &ProbeName) -> usize
    ensures { result ≡ length (filter (is_start_of probe.now) acts.now) }
{
    let mut count = 0;
    for act in acts {
        if is_start_of(probe, act) {
            count += 1;
        }
    }
    count
}

fn is_start_of(probe: &ProbeName, act: &Act) -> bool
    ensures { result ≡ is_start_of probe.now act.now }
{
    act.probe == *probe && matches!(act.deed, Deed::Probed)
}

/// How many entries of the target answered a ping of that probe.
fn count_answers(acts: &[Act], probe: &ProbeName) -> usize
    ensures { result ≡ length (filter (is_answer_of probe.now) acts.now) }
{
    let mut count = 0;
    for act in acts {
        if is_answer_of(probe, act) {
            count += 1;
        }
    }
    count
}

fn is_answer_of(probe: &ProbeName, act: &Act) -> bool
    ensures { result ≡ is_answer_of probe.now act.now }
{
    act.probe == *probe && act.member == probe.target && is_ping(&act.deed) && is_passing(&act.deed)
}

fn is_ping(deed: &Deed) -> bool
    ensures { result ≡ is_ping deed.now }
{
    match deed {
        Deed::Heard(hearing) => hearing.kind == Kind::Ping,
        Deed::Probed => false,
    }
}
