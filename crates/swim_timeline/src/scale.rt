//! Where the ticks and the lanes of a picture lie, in pixels.

ghost use Rattle.std.specs.Prelude.{◌<◌, ◌≤◌, ◌^◌, IfSome};

use swim_history::Opening;

/// Where all texts begin that stand at the left, the members' names among them.
pub(crate) const NAMES: u64 = 24;
/// Where the ticks begin, right of the members' names.
pub(crate) const LEFT: u64 = 176;
/// How high a lane is, and how far below its upper edge the line of its member lies.
pub(crate) const LANE: u64 = 48;

const LINE: u64 = 20;
/// The lowest upper edge of the lanes.
const LOWEST_TOP: u64 = 65_535;
/// More lanes than any run has: each needs a member that is known from the start, or an entry.
const MOST_LANES: u64 = 1 << 40;
/// The least width of a picture, which has room for the legend, and what is left free at its right and below.
const LEAST_WIDTH: u64 = 1008;

const MARGIN: u64 = 24;
/// How wide the ticks of a short run are together, and how wide a tick or a period is at the most and at the least.
const SHORT_RUN: u64 = 960;

const WIDEST_TICK: u64 = 56;

const NARROWEST_TICK: u64 = 16;

const NARROWEST_PERIOD: u64 = 96;
/// The first period number that is too long for the ruler: one of thirteen digits, as the clock's are.
const LONG_NUMBER: u64 = 1_000_000_000_000;

/// The scale of a picture that shows so many ticks and lanes, behind some ticks that it leaves out.
#[derive(Clone, Copy)]
pub(crate) struct Scale {
    before: u32,
    ticks: u32,
    period: u32,
    last: u64,
    period_width: u64,
    top: u64,
    lanes: u64,

    ghost begins: { 0 < period },
    ghost fits: { period_width < 2 ^ 22 },
    ghost top_fits: { top < 2 ^ 16 },
    ghost lanes_fit: { lanes < 2 ^ 48 },
}

impl Scale {
    /// The scale for so many ticks of a run, behind so many others, with so many lanes below a head of that height.
    pub(crate) fn new(opening: &Opening, before: u32, ticks: u32, lanes: usize, top: u16) -> Scale {
        Scale {
            before,
            ticks,
            period: opening.period(),
            last: opening.last(),
            period_width: period_width(u64::from(opening.period()), u64::from(ticks)),
            top: u64::from(top),
            lanes: MOST_LANES.min(lanes as u64),
        }
    }

    /// The same with lanes that lie so much lower.
    pub(crate) fn lowered(self, by: u16) -> Scale {
        let mut scale = self;
        scale.top = LOWEST_TOP.min(self.top + u64::from(by));
        scale
    }

    /// How many ticks are shown.
    pub(crate) fn ticks(&self) -> u32 {
        self.ticks
    }

    /// Where a tick stands.
    pub(crate) fn at(&self, tick: u32) -> u64
        ensures { result < 2 ^ 55 }
    {
        LEFT + self.width_of(tick.saturating_sub(self.before))
    }

    /// How wide so many ticks are.
    fn width_of(&self, ticks: u32) -> u64
        ensures { result < 2 ^ 54 }
    {
        u64::from(ticks) * self.period_width / u64::from(self.period)
    }

    /// Where an ack stands that came after a tick and before the next.
    pub(crate) fn heard_at(&self, tick: u32) -> u64
        ensures { result < 2 ^ 56 }
    {
        self.after(tick, 3)
    }

    /// Where a removal stands after a tick: left of a join, since a member mostly leaves before it comes again.
    pub(crate) fn removed_at(&self, tick: u32) -> u64
        ensures { result < 2 ^ 56 }
    {
        self.after(tick, 2)
    }

    /// Where a join stands after a tick.
    pub(crate) fn joined_at(&self, tick: u32) -> u64
        ensures { result < 2 ^ 56 }
    {
        self.after(tick, 4)
    }

    /// So many sixths of the way from a tick to the next.
    fn after(&self, tick: u32, sixths: u64) -> u64
        requires { sixths ≤ 6 }
        ensures { result < 2 ^ 56 }
    {
        self.at(tick) + sixths * self.period_width / (6 * u64::from(self.period))
    }

    /// Where the last tick ends.
    pub(crate) fn right(&self) -> u64
        ensures { result < 2 ^ 56 }
    {
        LEFT + self.width_of(self.ticks) + self.width_of(1)
    }

    /// The upper edge of a lane, counted from 0 at the first.
    pub(crate) fn edge(&self, lane: usize) -> u64
        ensures { result < 2 ^ 55 }
    {
        self.top + LANE * MOST_LANES.min(lane as u64)
    }

    /// Where the line of a lane stands.
    pub(crate) fn line(&self, lane: usize) -> u64
        ensures { result < 2 ^ 56 }
    {
        self.edge(lane) + LINE
    }

    /// The upper edge of the first lane.
    pub(crate) fn top(&self) -> u64
        ensures { result < 2 ^ 16 }
    {
        self.top
    }

    /// The lower edge of the last lane.
    pub(crate) fn bottom(&self) -> u64
        ensures { result < 2 ^ 56 }
    {
        self.top + self.lanes * LANE
    }

    /// The width of the picture.
    pub(crate) fn width(&self) -> u64 {
        LEAST_WIDTH.max(self.right() + MARGIN)
    }

    /// The height of the picture.
    pub(crate) fn height(&self) -> u64 {
        self.bottom() + MARGIN
    }

    /// How wide a period is.
    pub(crate) fn period_width(&self) -> u64
        ensures { result < 2 ^ 22 }
    {
        self.period_width
    }

    /// Where the period with this number starts, if it is shown.
    pub(crate) fn start(&self, number: u64) -> Option<u64>
        ensures { IfSome result (λ x. x < 2 ^ 55) }
    {
        let before = number.checked_sub(self.last)?.checked_sub(1)?;
        let tick = before.checked_mul(u64::from(self.period))?.checked_add(1)?;
        let shown = tick.checked_sub(u64::from(self.before))?;
        if shown == 0 || shown > u64::from(self.ticks) {
            return None;
        }
        Some(LEFT + self.width_of(shown as u32))
    }

    /// How many periods are shown, the last of which may be unfinished.
    pub(crate) fn periods(&self) -> u32 {
        self.ticks.div_ceil(self.period)
    }

    /// The period in which a tick lies, counted from 0 at the first that is shown.
    pub(crate) fn period_of(&self, tick: u32) -> u32 {
        tick.saturating_sub(self.before).saturating_sub(1) / self.period
    }

    /// The tick with which a period starts, counted from 0 at the first that is shown.
    pub(crate) fn starting_tick(&self, period: u32) -> u32 {
        period
            .saturating_mul(self.period)
            .saturating_add(self.before)
            .saturating_add(1)
    }

    /// The number that the ruler gives a period, counted from 0 at the first that is shown. Where numbers are long, the
    /// run's first period has 1.
    pub(crate) fn number(&self, period: u32) -> u64 {
        let before = u64::from(self.before / self.period);
        let last = if self.first_long_number().is_some() {
            0
        } else {
            self.last
        };
        last.saturating_add(before + 1 + u64::from(period))
    }

    /// The number of the run's first period, if that is too long for the ruler.
    pub(crate) fn first_long_number(&self) -> Option<u64> {
        let first = self.last.checked_add(1)?;
        if first < LONG_NUMBER {
            return None;
        }
        Some(first)
    }
}

/// How wide a period of so many ticks is in a picture of so many ticks. A short run fills its picture.
fn period_width(period: u64, ticks: u64) -> u64
    requires { period < 2 ^ 16 }
    ensures { result < 2 ^ 22 }
{
    let widest = WIDEST_TICK * period;
    let narrowest = NARROWEST_PERIOD.min(NARROWEST_TICK * period);
    if ticks == 0 {
        return widest;
    }
    (SHORT_RUN * period / ticks).max(narrowest).min(widest)
}
