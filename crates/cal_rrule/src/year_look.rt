//! Years as they are looked at.

ghost use Rattle.std.specs.Prelude.{◌≤◌, neg_ℤ, pos};
ghost use Rattle.cal_days.specs.Day.{IsBetween};

/// A year: its first day and its length.
#[derive(Clone, Copy)]
pub(crate) struct YearLook {
    pub year: i32,
    pub first: i64,
    pub days: u16,
    ghost short: { days ≤ 403 },
    ghost near: { IsBetween (neg_ℤ (pos 1000000000)) (pos 1000000000) first },
}
