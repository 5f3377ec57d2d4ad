//! The months of the proleptic Gregorian calendar, in closed form. The Julian calendar has them too.
//!
//! They are counted in years that begin on March 1. Source: Neri and Schneider, Euclidean affine functions and
//! their application to calendar algorithms (2022).

ghost use Rattle.std.specs.Prelude.{◌≡◌, ◌+◌, ◌-◌, ◌<◌, ◌≤◌, if◌then◌else◌, nat_le, pos, neg_ℤ, ◌-ℤ◌};
ghost use Rattle.cal_days.specs.Day.{IsBetween, IsShiftedYear};
ghost use Rattle.cal_base.specs.GregorianList.{gregorian_month_length, march_days_before, march_month, march_month_most};

/// Returns the number of days in a month, 1 to 12, of a leap year or a common year.
pub fn days_in_month(leap: bool, month: u8) -> u8
    requires { (1 ≤ month) × (month ≤ 12) }
    ensures { result ≡ gregorian_month_length leap month }
{
    if month == 2 {
        28 + u8::from(leap)
    } else {
        30 + (month + month / 8) % 2
    }
}

/// Returns the year of the last March 1 on or before the start of a month, and the month's number in the year that
/// begins there, 3 to 14. Months 13 and 14 are January and February of the next year.
///
/// `year`: -8009999 to 8009999. `month`: 1 to 12.
pub fn in_march_year(year: i32, month: u8) -> (i32, u8)
    requires year { IsShiftedYear year }
    requires month { (1 ≤ month) × (month ≤ 12) }
    ensures month { (3 ≤ result.1) × (result.1 ≤ 14) }
    ensures same { march_month result.1 ≡ month }
    ensures year { result.0 ≡ (if nat_le result.1 12 then year else year -ℤ pos 1) }
    ensures range { IsBetween (neg_ℤ (pos 8010000)) (pos 8009999) result.0 }
{
    if month <= 2 {
        (year - 1, month + 12)
    } else {
        (year, month)
    }
}

/// Returns the number of days from March 1 to the first day of a month, 3 to 14. Months 13 and 14 are January and
/// February of the next year.
pub fn days_from_march(month: u8) -> u16
    requires { (3 ≤ month) × (month ≤ 14) }
    ensures value { result ≡ march_days_before month }
    ensures bound { result ≤ 337 }
{
    ((979 * u32::from(month) - 2919) / 32) as u16
}

/// Returns the month, 3 to 14, and the day of the month of the day that is `day` days after March 1, 0 to 365. Months
/// 13 and 14 are January and February of the next year, and February has 29 days here.
pub fn month_and_day_from_march(day: u16) -> (u8, u8)
    requires { day < 366 }
    ensures month { (3 ≤ result.0) × (result.0 ≤ 14) }
    ensures day { (1 ≤ result.1) × (result.1 ≤ march_month_most result.0) }
    ensures value { march_days_before result.0 + (result.1 - 1) ≡ day }
{
    let scaled = 2141 * u32::from(day) + 197913;
    let month = (scaled / 65536) as u8;
    let rest = scaled % 65536 / 2141;
    (month, rest as u8 + 1)
}
