//! The months of a Hebrew year, determined by the number of days in the year.
//!
//! Heshvan, month 2, has 30 days in years of 355 or 385 days. Kislev, month 3, has 29 days in years of 353 or 383
//! days. In a leap year, ordinal month 6 is a leap month. Otherwise months of 30 and 29 days alternate.

ghost use Rattle.std.specs.Prelude.{◌≡◌, ◌&&◌, ◌||◌, ◌+◌, ◌-◌, ◌*◌, ◌/◌, ◌<◌, ◌≤◌, nat_le, if◌then◌else◌, pos, neg_ℤ};
ghost use Rattle.cal_days.specs.Day.{IsBetween, IsRuleYear};
ghost use Rattle.cal_days.specs.Hebrew.{months_before};
ghost use Rattle.cal_types.specs.MonthParts.{month_parts};
ghost use Rattle.cal_hebrew.specs.HebrewList.{is_hebrew_month};
ghost use Rattle.cal_hebrew.specs.HebrewPlaces.{IsYearLength, days_before_place, formatted_month_of_place, hebrew_place, is_complete, is_deficient, is_leap_length, leap_status_of_place, month_of_place, place_count, place_length, place_of_day, regular_day, regular_days_before};

use cal_types::{LeapStatus, Month, MonthError, Overflow};

/// Returns whether a year with this number of days has 13 months.
pub(crate) fn is_leap(length: u16) -> bool
    ensures { result ≡ is_leap_length length }
{
    length >= 383
}

/// Returns whether the second month of a year with this number of days has 30 days.
fn is_second_long(length: u16) -> bool
    ensures { result ≡ is_complete length }
{
    length == 355 || length == 385
}

/// Returns whether the third month of a year with this number of days has 29 days.
fn is_third_short(length: u16) -> bool
    ensures { result ≡ is_deficient length }
{
    length == 353 || length == 383
}

/// Returns the number of months in a year with this number of days.
pub(crate) fn months_in_year(length: u16) -> u8
    ensures value { result ≡ place_count length }
    ensures bound { result ≤ 13 }
{
    if is_leap(length) { 13 } else { 12 }
}

/// Returns the number of days in an ordinal month.
pub(crate) fn days_in_month(length: u16, place: u8) -> u8
    requires { place ≤ 13 }
    ensures { result ≡ place_length length place }
{
    if place == 2 {
        if is_second_long(length) { 30 } else { 29 }
    } else if place == 3 {
        if is_third_short(length) { 29 } else { 30 }
    } else if is_leap(length) && place >= 6 {
        30 - place % 2
    } else {
        29 + place % 2
    }
}

/// Returns the number of days in the year before an ordinal month, if the second month has 29 days and the third 30.
fn days_before_regular_month(length: u16, place: u8) -> u32
    requires { (1 ≤ place) × (place ≤ 13) }
    ensures value { result ≡ regular_days_before (is_leap_length length) place }
    ensures bound { (29 * place ≤ result + 29) × (result ≤ 400) }
{
    let odd_days = if is_leap(length) && place > 6 { 2 } else { 1 };
    (59 * (u32::from(place) - 1) + odd_days) / 2
}

/// Returns the number of days by which a year exceeds the shortest one, which has 353 days, or 383 in a leap year.
fn days_over_shortest(length: u16) -> u32
    requires { IsYearLength length }
    ensures value { result + (if is_leap_length length then 383 else 353) ≡ length }
    ensures bound { result ≤ 2 }
{
    if is_leap(length) {
        u32::from(length) - 383
    } else {
        u32::from(length) - 353
    }
}

/// Returns the number of days by which a year is ahead of a year whose second month has 29 days and third month 30,
/// plus one so that it isn't negative. It depends on whether the second and the third month have passed.
fn days_over_regular(length: u16, has_second_passed: bool, has_third_passed: bool) -> u32
    requires { IsYearLength length }
    ensures value { result ≡ (if has_third_passed && is_deficient length then 0 else (
        if (has_second_passed || has_third_passed) && is_complete length then 2 else 1)) }
    ensures bound { result ≤ 2 }
{
    let over = days_over_shortest(length);
    if has_third_passed {
        over
    } else if has_second_passed {
        over / 2 + 1
    } else {
        1
    }
}

/// Returns the number of days in the year before an ordinal month.
pub(crate) fn days_before_month(length: u16, place: u8) -> u32
    requires length { IsYearLength length }
    requires place { (1 ≤ place) × (place ≤ 13) }
    ensures value { result ≡ days_before_place length place }
    ensures bound { result ≤ 401 }
{
    days_before_regular_month(length, place) + days_over_regular(length, place > 2, place > 3) - 1
}

/// Returns the day of the year, from 0, that a day would be if the second month had 29 days and the third 30.
fn day_of_regular_year(length: u16, day: u16) -> u32
    requires length { IsYearLength length }
    requires day { day < 385 }
    ensures value { result ≡ regular_day length day }
    ensures bound { result ≤ 385 }
{
    u32::from(day) + 1 - days_over_regular(length, day >= 59, day >= 88)
}

/// Returns twice the day of the year, from 0, that a day would be if the second month had 29 days and the third 30,
/// minus one from the leap month on. Two months have 59 days, so a month takes 59 of the result.
fn twice_regular_day(length: u16, day: u16) -> u32
    requires length { IsYearLength length }
    requires day { day < 385 }
    ensures place { result / 59 + 1 ≡ place_of_day length day }
    ensures value { result ≡ (if is_leap_length length && nat_le 148 (regular_day length day)
        then 2 * regular_day length day - 1 else 2 * regular_day length day) }
    ensures bound { result ≤ 770 }
{
    let regular = day_of_regular_year(length, day);
    if is_leap(length) && regular >= 148 {
        2 * regular - 1
    } else {
        2 * regular
    }
}

/// Returns the ordinal month and the day of the month of a day of the year, counted from 0.
pub(crate) fn month_and_day(length: u16, day: u16) -> (u8, u8)
    requires length { IsYearLength length }
    requires within { day < length }
    ensures place { (1 ≤ result.0) × (result.0 ≤ place_count length) }
    ensures before { days_before_place length result.0 + result.1 ≡ day + 1 }
    ensures day { (1 ≤ result.1) × (result.1 ≤ place_length length result.0) }
{
    // A second month of 29 days doesn't have this day.
    if day == 59 && is_second_long(length) {
        return (2, 30);
    }
    let twice = twice_regular_day(length, day);
    ((twice / 59) as u8 + 1, (twice % 59 / 2) as u8 + 1)
}

/// Returns whether a month is one of the plain months 1 to 12, or the leap month 5.
pub(crate) fn is_hebrew(month: Month) -> bool
    ensures { result ≡ is_hebrew_month (month_parts month) }
{
    if month.is_leap() {
        month.number() == 5
    } else {
        1 <= month.number() && month.number() <= 12
    }
}

/// Returns the ordinal month of a month in a year with this number of days. Under [`Overflow::Constrain`], month 6
/// stands in for the leap month in a common year.
///
/// # Errors
///
/// - [`MonthError::NotInCalendar`] if the month is neither a plain month 1 to 12 nor the leap month 5.
/// - [`MonthError::NotInYear`] if the month is the leap month, the year is a common year and `overflow` is
///   [`Overflow::Reject`].
pub(crate) fn place_of_month(
    length: u16,
    month: Month,
    overflow: Overflow,
) -> Result<u8, MonthError>
    ensures { result ≡ hebrew_place (is_leap_length length) (month_parts month) overflow }
{
    if !is_hebrew(month) {
        return Err(MonthError::NotInCalendar);
    }
    if month.is_leap() {
        return match overflow {
            Overflow::Reject if !is_leap(length) => Err(MonthError::NotInYear),
            _ => Ok(6),
        };
    }
    if is_leap(length) && month.number() >= 6 {
        Ok(month.number() + 1)
    } else {
        Ok(month.number())
    }
}

/// Returns the month at an ordinal number of a year with this number of days.
pub(crate) fn month_in_place(length: u16, place: u8) -> Month
    requires { (1 ≤ place) × (place ≤ 13) }
    ensures { month_parts result ≡ month_of_place (is_leap_length length) place }
{
    if is_leap(length) && place == 6 {
        Month::leap(5)
    } else if is_leap(length) && place > 6 {
        Month::new(place - 1)
    } else {
        Month::new(place)
    }
}

/// Returns the leap status of an ordinal month of a year with this number of days.
pub(crate) fn leap_status(length: u16, place: u8) -> LeapStatus
    ensures { result ≡ leap_status_of_place (is_leap_length length) place }
{
    if is_leap(length) && place == 6 {
        LeapStatus::Leap
    } else if is_leap(length) && place == 7 {
        LeapStatus::Base
    } else {
        LeapStatus::Normal
    }
}

/// Returns the month by which an ordinal month of a year with this number of days is formatted.
pub(crate) fn formatted_month(length: u16, place: u8, month: Month) -> Month
    ensures { month_parts result ≡ formatted_month_of_place (is_leap_length length) place (month_parts month) }
{
    if is_leap(length) && place == 7 {
        Month::leap(6)
    } else {
        month
    }
}

/// Returns the number of months from the first day of year 1 to the first day of a year from -8000000 to 8000000.
#[tactic(auto, using(cal_days::proofs::Signed::signed))]
pub(crate) fn months_before_year(year: i32) -> i64
    requires { IsRuleYear year }
    ensures value { result ≡ months_before year }
    ensures bound { IsBetween (neg_ℤ (pos 100000000)) (pos 100000000) result }
{
    (235 * i64::from(year) - 234).div_euclid(19)
}

/// Returns 18 minus the remainder of the division by 19 that counts the months before a year. The year could begin
/// this many nineteenths of a month later with the same number of months before it.
#[tactic(auto, using(cal_days::proofs::Signed::signed_casts))]
pub(crate) fn months_left_over(year: i32) -> u32
    requires { IsRuleYear year }
    ensures { result ≤ 18 }
{
    18 - (235 * i64::from(year) - 234).rem_euclid(19) as u32
}
