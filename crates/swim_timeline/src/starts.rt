//! The starts of periods whose times are known.

ghost use Rattle.std.specs.Prelude.{◌≡◌, ◌++◌, IfOk, OnOk};
ghost use Rattle.std.specs.Ordering.{nat_cmp};
ghost use Rattle.std.specs.BTreeMap.{get};
ghost use Rattle.std.specs.Option.{option_to_list};
ghost use Rattle.swim_timeline.specs.Starts.{is_shown, start_by, starts};

use crate::clock::ticks_with;
use crate::spans::Span;
use crate::times::{StartTime, Times};
use std::alloc::{AllocError, Global};
use swim_history::{Called, Journal, Reply};

/// A start of a period, by its tick, and when that was.
#[derive(Clone, Copy)]
pub(crate) struct TimedStart {
    pub tick: u32,
    pub time: StartTime,
}

/// Returns the starts of periods within these ticks of a journal whose times are known, oldest first. `Err` only where
/// memory was refused.
pub(crate) fn starts_in(
    alloc: Global,
    journal: &Journal,
    span: Span,
    times: &Times,
) -> Result<Vec<TimedStart>, AllocError>
    ensures { IfOk result (λ found. found.items ≡ starts span.first span.until times.now journal.now.past) }
{
    let mut found = Vec::new(alloc);
    let mut ticks = 0;
    for place in 0..journal.len() {
        if let Some(called) = journal.called(place) {
            ticks = ticks_with(ticks, &called);
            add_start(
                &mut found,
                start_by(span, ticks, time_at(times, place), &called),
            )?;
        }
    }
    Ok(found)
}

/// Adds a start, if there is one.
fn add_start(found: &mut Vec<TimedStart>, start: Option<TimedStart>) -> Result<(), AllocError>
    ensures { OnOk result (found.new.items ≡ found.old.items ++ option_to_list start) }
{
    if let Some(start) = start {
        found.push(start)?;
    }
    Ok(())
}

/// Returns the time of the start at a place, if it is known.
fn time_at(times: &Times, place: u32) -> Option<StartTime>
    ensures { result ≡ get nat_cmp times.now place }
{
    times.get(&place).copied()
}

/// Returns the start that an entry is, if it is one within these ticks and its time is known: `tick` is how many ticks
/// there were with it.
fn start_by(span: Span, tick: u32, time: Option<StartTime>, called: &Called) -> Option<TimedStart>
    ensures { result ≡ start_by span.first span.until tick time called.now.reply }
{
    match (&called.reply, time) {
        (Reply::Started { .. }, Some(time)) if is_shown(span, tick) => {
            Some(TimedStart { tick, time })
        }
        _ => None,
    }
}

/// Whether a tick is among these.
fn is_shown(span: Span, tick: u32) -> bool
    ensures { result ≡ is_shown span.first span.until tick }
{
    span.first <= tick && u64::from(tick) <= span.until
}
