//! The occurrences of recurrence rules of iCalendar over the dates of any calendar (RFC 5545; RFC 7529).
#![tactic(auto)]

mod asked;
mod asking;
mod block_days;
mod daily;
mod day_blocks;
mod intervals;
mod looks;
mod missing;
mod month_days;
mod month_look;
mod month_steps;
mod monthly;
mod named_days;
mod named_masks;
mod named_months;
mod near_months;
mod near_years;
mod occurrences;
mod plain_years;
mod probes;
mod rule_periods;
mod set_days;
mod set_positions;
mod span;
mod span_masks;
mod week_start;
mod weekday_masks;
mod weekly;
mod weekly_days;
mod weekly_starts;
mod weeks_block;
mod year_days;
mod year_look;
mod year_months;
mod year_steps;
mod year_weeks;
mod yearly;

pub use occurrences::{
    occurrence_days, resume_occurrences, rule_occurrences, rule_occurrences_counted,
};
pub use recurrence_sets::{Listing, Occurrence};
pub use rule_periods::RulePeriods;
