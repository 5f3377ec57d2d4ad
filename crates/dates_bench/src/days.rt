//! The days that are measured.

ghost use Rattle.std.specs.Prelude.{◌≡◌, ◌+◌, ◌*◌, ◌%◌, ◌<◌};
ghost use Rattle.cal_days.specs.Day.{IsValidDay};

/// Returns the day number of a turn, from 1643 to 2465. Turn follows turn by 7919 days.
pub(crate) fn day_of_turn(turn: u32) -> u64
    ensures value { result ≡ 600000 + turn * 7919 % 300000 }
    ensures small { result < 900000 }
{
    600000 + u64::from(turn) * 7919 % 300000
}

/// Returns the day number of a turn, from May 1912 to December 2097: in published years of the Chinese, the Korean and
/// the Umm al-Qura calendar. Turn follows turn by 7919 days.
pub(crate) fn published_day_of_turn(turn: u32) -> u64
    ensures { result < 900000 }
{
    698100 + u64::from(turn) * 7919 % 67800
}

/// Returns the day of the other date of a pair, 547 to 821 years before.
pub(crate) fn other_day(day: u64) -> i64
    requires { day < 900000 }
    ensures { IsValidDay result }
{
    (day * 2 / 3) as i64
}

/// Returns a day nearly a million years earlier.
pub(crate) fn far_before(day: u64) -> i64
    requires { day < 900000 }
    ensures { IsValidDay result }
{
    day as i64 - 356800000
}

/// Returns a day nearly a million years later.
pub(crate) fn far_after(day: u64) -> i64
    requires { day < 900000 }
    ensures { IsValidDay result }
{
    day as i64 + 356800000
}
