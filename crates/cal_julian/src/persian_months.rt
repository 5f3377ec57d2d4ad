//! The months of the Persian calendar, in closed form.

ghost use Rattle.std.specs.Prelude.{◌≡◌, ◌+◌, ◌-◌, ◌<◌, ◌≤◌, Bool};
ghost use Rattle.cal_julian.specs.PersianList.{persian_days_before, persian_month_length};
ghost use Rattle.cal_julian.specs.PersianMonths.{month_of_day};

use crate::long_months::months_and_day;

/// The number of days in the six months of 31 days.
const DAYS_IN_LONG_MONTHS: u16 = 186;

/// Returns the number of days in a month, 1 to 12, of a leap year or a common year.
pub fn days_in_month(leap: bool, month: u8) -> u8
    requires { (1 ≤ month) × (month ≤ 12) }
    ensures { result ≡ persian_month_length leap month }
{
    match month {
        1..=6 => 31,
        12 if !leap => 29,
        _ => 30,
    }
}

/// Returns the number of days in a year before a month, 1 to 12.
fn days_before_month(month: u8) -> u16
    requires { (1 ≤ month) × (month ≤ 12) }
    ensures bound { result ≤ 336 }
    ensures value { (leap : Bool) → result ≡ persian_days_before leap month }
{
    let months = u16::from(month - 1);
    30 * months + months.min(6)
}

/// Returns the number of days in a year before a day, 1 to 31, of a month, 1 to 12.
pub fn days_before_day(month: u8, day: u8) -> u16
    requires month { (1 ≤ month) × (month ≤ 12) }
    requires day { (1 ≤ day) × (day ≤ 31) }
    ensures bound { result ≤ 366 }
    ensures value { (leap : Bool) → result ≡ persian_days_before leap month + (day - 1) }
{
    days_before_month(month) + u16::from(day - 1)
}

/// Returns the month, 1 to 12, and the day of the month of a day of the year, 0 to 365.
pub fn month_and_day(day_of_year: u16) -> (u8, u8)
    requires { day_of_year < 366 }
    ensures month { result.0 ≡ month_of_day day_of_year }
    ensures day { (leap : Bool) → result.1 ≡ day_of_year - persian_days_before leap result.0 + 1 }
{
    if day_of_year < DAYS_IN_LONG_MONTHS {
        let (months, day) = months_and_day(day_of_year);
        (months + 1, day)
    } else {
        let day = day_of_year - DAYS_IN_LONG_MONTHS;
        ((day / 30) as u8 + 7, (day % 30) as u8 + 1)
    }
}
