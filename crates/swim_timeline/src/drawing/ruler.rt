//! The ruler of a picture: where periods start, and with which tick.

use crate::scale::{NAMES, Scale};
use std::alloc::AllocError;

/// How wide the digits of a number are, and what is left free between two numbers.
const DIGIT: u64 = 8;

const SPACE: u64 = 16;
/// How far above the lanes the numbers of periods stand, and those of ticks.
const NUMBER_RISE: u64 = 24;

const TICK_RISE: u64 = 9;

/// Every how many periods a number may stand.
const STEPS: [u32; 6] = [1, 2, 5, 10, 20, 50];

const LAST_STEP: u32 = 100;

/// A line where each period starts, and above some of them the number of the period and of its first tick.
pub(crate) fn draw_ruler(text: &mut String, scale: &Scale) -> Result<(), AllocError> {
    draw_grid(text, scale)?;
    let above = scale.top().saturating_sub(NUMBER_RISE);
    let below = scale.top().saturating_sub(TICK_RISE);
    write!(
        text,
        r##"<text class="number" x="{NAMES}" y="{above}">period</text>"##
    )?;
    write!(
        text,
        r##"<text class="tick" x="{NAMES}" y="{below}">tick</text>"##
    )?;
    text.push_str("\n<g text-anchor=\"middle\">\n")?;
    draw_numbers(text, scale)?;
    text.push_str("</g>\n")
}

fn draw_grid(text: &mut String, scale: &Scale) -> Result<(), AllocError> {
    let top = scale.top().saturating_sub(4);
    let bottom = scale.bottom();
    text.push_str("<path class=\"grid\" d=\"")?;
    for period in 0..scale.periods() {
        let x = scale.at(scale.starting_tick(period));
        write!(text, "M{x} {top}V{bottom}")?;
    }
    text.push_str("\"/>\n")
}

fn draw_numbers(text: &mut String, scale: &Scale) -> Result<(), AllocError> {
    let step = step_of(scale);
    let above = scale.top().saturating_sub(NUMBER_RISE);
    let below = scale.top().saturating_sub(TICK_RISE);
    for period in 0..scale.periods() {
        if period.is_multiple_of(step) {
            let tick = scale.starting_tick(period);
            let x = scale.at(tick);
            let number = scale.number(period);
            write!(
                text,
                r##"<text class="number" x="{x}" y="{above}">{number}</text>"##
            )?;
            write!(
                text,
                r##"<text class="tick" x="{x}" y="{below}">{tick}</text>"##
            )?;
            text.push_str("\n")?;
        }
    }
    Ok(())
}

/// Every how many periods a number stands, so that none touches the next.
fn step_of(scale: &Scale) -> u32 {
    let digits = 1 + scale.number(scale.periods()).checked_ilog10().unwrap_or(0);
    step_for(DIGIT * u64::from(digits) + SPACE, scale)
}

/// Every how many periods something stands that needs such a width.
pub(crate) fn step_for(needed: u64, scale: &Scale) -> u32 {
    let width = scale.period_width();
    for step in STEPS {
        if u64::from(step) * width >= needed {
            return step;
        }
    }
    LAST_STEP
}
