//! Months as they are looked at.

ghost use Rattle.std.specs.Prelude.{◌≤◌, neg_ℤ, pos};
ghost use Rattle.cal_days.specs.Day.{IsBetween};

use cal_types::Month;

/// A month of a year: its place in it, its first day, its length and its name.
#[derive(Clone, Copy)]
pub(crate) struct MonthLook {
    pub year: i32,
    pub place: u8,
    pub first: i64,
    pub days: u8,
    pub month: Month,
    ghost short: { days ≤ 31 },
    ghost near: { IsBetween (neg_ℤ (pos 1000000000)) (pos 1000000000) first },
}
