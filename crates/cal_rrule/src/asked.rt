//! A rule and its start: which parts are missing, and what the start says for them.

use crate::missing::Missing;
use crate::month_look::MonthLook;
use cal_rule::RecurrenceRule;

/// A rule, the parts that it lacks, and the start.
#[derive(Clone, Copy)]
pub(crate) struct Asked {
    pub rule: RecurrenceRule,
    pub missing: Missing,
    /// The start's day number.
    pub day: i64,
    /// The start's day of the month.
    pub day_of_month: u8,
    /// The start's month.
    pub month: MonthLook,
}
