//! The years of the Hebrew calendar (Reingold and Dershowitz, Calendrical Calculations, chapter 8).
//!
//! A year starts on the day of the mean new moon (molad) of its first month, or up to two days later. From one mean
//! new moon to the next are 29 days and 13753 parts; a day has 25920 parts. Of 19 years, 7 have 13 months.

ghost use Rattle.std.specs.Prelude.{◌≡◌, ◌<◌, ◌≤◌, ◌%◌, ◌↔◌, IsTrue, pos, neg_ℤ, ◌+ℤ◌, ◌-ℤ◌, ◌*ℤ◌, ◌≤ℤ◌, ◌<ℤ◌};
ghost use Rattle.cal_days.specs.Day.{IsBetween, IsRuleYear, IsValidDay};
ghost use Rattle.cal_days.specs.Division.{floor_mod};
ghost use Rattle.cal_days.specs.Hebrew.{IsHebrewLength, hebrew_leap, hebrew_start, hebrew_year_length, moon_day, parts_before};
ghost use Rattle.cal_days.specs.Molad.{follows_382_days, has_356_days, is_shunned, postponement};

use crate::rata_die::RataDie;

/// The number of parts in a day.
const PARTS_IN_DAY: u64 = 25920;

/// The number of parts from one new moon to the next: 29 days and 13753 parts.
const PARTS_IN_MONTH: u64 = 765433;

/// The number of parts from the Sunday before year 1 to the new moon of year 1. Days begin at noon here: a new moon
/// at noon or later counts for the next day.
const PARTS_BEFORE_YEAR_1: u64 = 38004;

/// A multiple of the years after which the calendar repeats. Counting from this many years before year 0 keeps every
/// year here nonnegative, so that unsigned division rounds down.
const YEARS_BEFORE: i32 = 8273664;

/// The number of days in these years, plus the days from the Sunday before year 1 to day 0.
const DAYS_BEFORE: i64 = 3023302912;

/// The mean new moon (molad) of a year's first month.
#[derive(Clone, Copy)]
struct Molad {
    /// The day, counted from a Sunday.
    day: u64,
    /// The number of parts since noon of the day before.
    part: u64,
    /// `235 * year - 234` modulo 19, which is below 7 if the year before has 13 months, and at least 12 if this year
    /// has 13 months.
    left: u32,
}

/// Returns the mean new moon of the first month of a year from -8000001 to 8000001.
fn molad_of(year: i32) -> Molad
    requires { IsBetween (neg_ℤ (pos 8000001)) (pos 8000001) year }
    ensures day { pos result.day ≡ moon_day year +ℤ pos 3021929485 }
    ensures part { result.part ≡ floor_mod (parts_before year) 25920 }
    ensures left { result.left ≡ floor_mod (pos 235 *ℤ year -ℤ pos 234) 19 }
    ensures bound { result.day < 10000000000 }
{
    let months = 235 * (year + YEARS_BEFORE) as u32 - 234;
    let parts = PARTS_IN_MONTH * u64::from(months / 19) + PARTS_BEFORE_YEAR_1;
    Molad {
        day: parts / PARTS_IN_DAY,
        part: parts % PARTS_IN_DAY,
        left: months % 19,
    }
}

/// Returns whether no year starts on this weekday (0 is Sunday): Sunday, Wednesday and Friday.
fn is_weekday_shunned(weekday: u64) -> bool
    ensures { result ≡ is_shunned weekday }
{
    weekday == 0 || weekday == 3 || weekday == 5
}

/// Returns whether a year that starts on its new moon's day, or the day after, would have 356 days.
fn is_too_long(weekday: u64, moon: Molad) -> bool
    ensures { result ≡ has_356_days weekday moon.part moon.left }
{
    weekday == 2 && moon.part >= 16404 && moon.left < 12
}

/// Returns whether the year before a year that starts on its new moon's day would have 382 days.
fn is_after_too_short(weekday: u64, moon: Molad) -> bool
    ensures { result ≡ follows_382_days weekday moon.part moon.left }
{
    weekday == 1 && moon.part >= 23269 && moon.left < 7
}

/// Returns the number of days from the day of the new moon to the first day of the year. At most one of the reasons
/// for a delay applies, since they need different weekdays.
fn days_put_off(moon: Molad) -> u64
    ensures { result ≡ postponement (moon.day % 7) moon.part moon.left }
{
    let weekday = moon.day % 7;
    u64::from(is_weekday_shunned(weekday))
        + 2 * u64::from(is_too_long(weekday, moon))
        + u64::from(is_after_too_short(weekday, moon))
}

/// Returns the first day of a year from -8000001 to 8000001.
fn first_day(year: i32) -> RataDie
    requires { IsBetween (neg_ℤ (pos 8000001)) (pos 8000001) year }
    ensures { result ≡ hebrew_start year }
{
    let moon = molad_of(year);
    RataDie::new((moon.day + days_put_off(moon)) as i64 - DAYS_BEFORE)
}

/// Returns the first day of a year from -8000000 to 8000000.
pub fn year_start(year: i32) -> RataDie
    requires { IsRuleYear year }
    ensures formula { result ≡ hebrew_start year }
    ensures joins { hebrew_start (year +ℤ pos 1) ≡ hebrew_start year +ℤ pos (hebrew_year_length year) }
{
    first_day(year)
}

/// Returns the number of days in a year from -8000000 to 8000000: 353, 354 or 355, or 383, 384 or 385 in a leap year.
pub fn year_length(year: i32) -> u16
    requires { IsRuleYear year }
    ensures value { result ≡ hebrew_year_length year }
    ensures one_of_six { IsHebrewLength (hebrew_leap year) result }
{
    first_day(year + 1).since(first_day(year)) as u16
}

/// Returns whether a year has 13 months.
#[tactic(auto, using(crate::proofs::Signed::signed), unfolding(crate::specs::Division::floor_mod))]
pub fn is_leap_year(year: i32) -> bool
    ensures { IsTrue result ↔ IsTrue (hebrew_leap year) }
{
    (7 * i64::from(year) + 1).rem_euclid(19) < 7
}

/// A multiple of the years after which the calendar repeats. Counting from this many years before year 0 keeps every
/// valid day nonnegative.
const VALID_YEARS_BEFORE: i32 = 1378944;

/// The number of days in these years, plus the days from the first day of year 1 to day 0, plus 400.
const VALID_DAYS_BEFORE: i64 = 505028741;

/// Returns the year that contains a valid day, or the year after it.
fn near_year(rd: RataDie) -> i32
    requires { IsValidDay rd }
    ensures low { hebrew_start (result -ℤ pos 1) ≤ℤ rd }
    ensures high { rd <ℤ hebrew_start (result +ℤ pos 1) }
    ensures range { IsBetween (neg_ℤ (pos 1100000)) (pos 1100000) result }
{
    // 98496 years have 35975351 days, to within 32 days. The 400 extra days make up for the difference.
    let days = (rd.to_i64_date() + VALID_DAYS_BEFORE) as u64;
    (98496 * days / 35975351) as i32 - VALID_YEARS_BEFORE
}

/// A day in its year.
#[derive(Clone, Copy, Debug, PartialEq, Eq)]
pub struct DayInYear {
    /// The year that contains the day.
    pub year: i32,
    /// The day of that year, from 0.
    pub day: u16,
    /// The number of days in the year.
    pub year_length: u16,
}

/// Returns a day in its year. `first` and `next` are the first day of that year and of the next year.
fn day_in_year(rd: RataDie, year: i32, first: RataDie, next: RataDie) -> DayInYear
    requires first { first ≡ hebrew_start year }
    requires next { next ≡ hebrew_start (year +ℤ pos 1) }
    requires within { (first ≤ℤ rd) × (rd <ℤ next) }
    ensures year { result.year ≡ year }
    ensures day { hebrew_start year +ℤ pos result.day ≡ rd }
    ensures length { result.year_length ≡ hebrew_year_length year }
    ensures within { result.day < result.year_length }
{
    DayInYear {
        year,
        day: rd.since(first) as u16,
        year_length: next.since(first) as u16,
    }
}

/// Returns the year that contains a valid day, -365242499 to 365242134, with the year's length and the day's index in
/// the year.
pub fn day_in_year_from_fixed(rd: RataDie) -> DayInYear
    requires { IsValidDay rd }
    ensures day { hebrew_start result.year +ℤ pos result.day ≡ rd }
    ensures length { result.year_length ≡ hebrew_year_length result.year }
    ensures within { result.day < result.year_length }
    ensures range { IsBetween (neg_ℤ (pos 996300)) (pos 1003800) result.year }
{
    let near = near_year(rd);
    let first = first_day(near);
    if rd.since(first) < 0 {
        day_in_year(rd, near - 1, first_day(near - 1), first)
    } else {
        day_in_year(rd, near, first, first_day(near + 1))
    }
}

/// Returns the year that contains a valid day, -365242499 to 365242134.
pub fn year_from_fixed(rd: RataDie) -> i32
    requires { IsValidDay rd }
    ensures first { hebrew_start result ≤ℤ rd }
    ensures last { rd <ℤ hebrew_start (result +ℤ pos 1) }
    ensures range { IsBetween (neg_ℤ (pos 996300)) (pos 1003800) result }
{
    let near = near_year(rd);
    if rd.since(first_day(near)) < 0 {
        near - 1
    } else {
        near
    }
}
