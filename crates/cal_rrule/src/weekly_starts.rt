//! The weeks on which blocks of WEEKLY begin.

ghost use Rattle.std.specs.Prelude.{◌≡◌, ◌<◌, ◌≤◌, ◌+◌, ◌-◌, ◌*◌, MatchOption, ℤ, pos, ◌≤ℤ◌, ◌<ℤ◌};
ghost use Rattle.cal_days.specs.Day.{IsValidDay};
ghost use Rattle.cal_rrule.specs.Blocks.{weekly_periods};
ghost use Rattle.cal_rrule.specs.Weekly.{AreDaysAhead, IsBlockStart};
ghost use Rattle.cal_rrule.specs.Weeks.{IsWeekOf};

use crate::asked::Asked;
use crate::week_start::week_of;
use cal_days::RataDie;

/// Returns how many periods a block has: so many that their weeks are among 63 weeks in a row, or one.
pub(crate) fn periods_of_block(interval: u32) -> u32
    requires { 0 < interval }
    ensures value { result ≡ weekly_periods interval }
    ensures some { 0 < result }
    ensures few { (result - 1) * interval ≤ 62 }
{
    if interval > 63 { 1 } else { 63 / interval }
}

/// Returns how many weeks a block has from its first week to its last one.
pub(crate) fn weeks_of_block(interval: u32, count: u32) -> u16
    requires some { 0 < count }
    requires few { (count - 1) * interval ≤ 62 }
    ensures value { result ≡ (count - 1) * interval + 1 }
    ensures most { result ≤ 63 }
{
    ((count - 1) * interval + 1) as u16
}

/// Returns how many days a week begins behind the first one, where weeks begin INTERVAL weeks apart.
pub(crate) fn days_to_week(interval: u32, place: u32) -> i64
    requires { place * interval ≤ 62 }
    ensures { result ≡ pos (7 * (place * interval)) }
{
    7 * i64::from(place * interval)
}

/// Returns how many weeks lie from a block's first week to the next block's first week.
fn weeks_to_next(interval: u32) -> u32
    requires { 0 < interval }
    ensures value { result ≡ weekly_periods interval * interval }
    ensures some { 0 < result }
{
    if interval > 63 {
        interval
    } else {
        63 / interval * interval
    }
}

/// Returns how many days a block begins behind the start's week, or `None` if they are more than the valid days.
fn days_ahead(interval: u32, block: u32) -> Option<i64>
    requires { 0 < interval }
    ensures { AreDaysAhead interval block result }
{
    let weeks = u64::from(weeks_to_next(interval));
    let block = u64::from(block);
    if block > 110000000 / weeks {
        return None;
    }
    Some((7 * (block * weeks)) as i64)
}

/// Returns a day, if it isn't behind a last one.
fn up_to(day: i64, last: i64) -> Option<i64>
    ensures { MatchOption result (last <ℤ day) (λ n. (n ≡ day) × (n ≤ℤ last)) }
{
    if day > last { None } else { Some(day) }
}

/// Returns the day on which a block begins, or `None` if that is behind a last day.
pub(crate) fn start_of_block(asked: &Asked, block: u32, last: RataDie) -> Option<i64>
    requires valid { IsValidDay asked.now.day }
    requires last { IsValidDay last }
    ensures { (w : ℤ) → IsWeekOf asked.now.rule.week_start asked.now.day w →
        IsBlockStart w asked.now.rule.interval block last result }
{
    let week = week_of(asked.rule.week_start(), RataDie::new(asked.day));
    match days_ahead(asked.rule.interval(), block) {
        None => None,
        Some(days) => up_to(week + days, last.to_i64_date()),
    }
}
