//! Mean lunisolar years: start with [`mean_year`].
//!
//! Months begin on the day of a mean new moon. Counted from the month of the mean winter solstice, the first month
//! without its solar term is the leap month: the next month begins on or before the day of that term.
//!
//! So a year begins with the last moon on or before the day of term 2, whether or not a leap month comes before it.
//! Its own leap month is the first of its months without its term. The time between terms is always longer than the
//! time between moons by the same amount, so a division finds the first month that may have no term.

ghost use Rattle.std.specs.Prelude.{◌≡◌, ℕ, ◌+◌, ◌*◌, ◌/◌, ◌%◌, ◌<◌, ◌≤◌, nat_eq, nat_le, if◌then◌else◌, pos, neg_ℤ, ◌+ℤ◌, ◌-ℤ◌, ◌≤ℤ◌, ◌<ℤ◌};
ghost use Rattle.cal_days.specs.Day.{IsBetween, IsRuleYear, IsValidDay};
ghost use Rattle.cal_east_asian.specs.MeanYears as mean;
ghost use Rattle.cal_east_asian.specs.MeanYears.{AreMonths, HasSolsticeMoon, IsOffset, months_of_three};
ghost use Rattle.cal_east_asian.specs.MeanPlaces.{ends_by_term, month_bits, place_from};
ghost use Rattle.cal_east_asian.specs.MeanTraditionalYears.{IsMeanYear, mean_traditional_year};
ghost use Rattle.cal_east_asian.specs.MeanParts.{mean_parts};
ghost use Rattle.cal_east_asian.specs.EastAsianYear.{IsNewYear, months_of_year};
ghost use Rattle.cal_east_asian.specs.EastAsianYears.{end_day, parts_of};

use crate::east_asian_traditional_year::EastAsianTraditionalYear;
use crate::mean_moons::{MONTH, day_and_time, last_moon_by, moon, second_term};
use cal_days::{RataDie, gregorian};

/// The length of a day, in milliseconds.
const DAY: u32 = 86_400_000;

/// The length of a mean month beyond 29 days, in milliseconds.
const BEYOND_29_DAYS: u32 = 45_842_876;

/// The time between two mean solar terms beyond 30 days, in milliseconds.
const BEYOND_30_DAYS: u32 = 37_746_000;

/// The time between two mean solar terms beyond a mean month, in milliseconds.
const BEYOND_A_MONTH: u32 = 78_303_124;

/// Returns the time from the solar term of a month to its end, from its first moment and its term.
#[tactic(auto, using(cal_days::proofs::Signed::signed_casts))]
fn lead(first: i64, term: i64) -> u32
    requires near { (neg_ℤ (pos 600000000000000000) ≤ℤ first) × (first ≤ℤ pos 600000000000000000) }
    requires after { term <ℤ (first +ℤ pos 2551442876) }
    requires within { first <ℤ (term +ℤ pos 86400000) }
    ensures exact { pos result ≡ first +ℤ pos 2551442876 -ℤ term }
    ensures bound { result < 2637842876 }
{
    (first + MONTH - term) as u32
}

/// Returns the first month that ends less than a day after its solar term, or before it.
///
/// Earlier months end after the days of their terms. Months after the next one end on or before the days of their
/// terms. In between, the days decide.
fn first_near_term(lead: u32) -> u32
    requires { lead < 2637842876 }
    ensures near { lead < 86400000 + 78303124 * result }
    ensures first { (j : ℕ) → j < result → 86400000 + 78303124 * j ≤ lead }
    ensures few { result ≤ 33 }
{
    if lead < DAY {
        0
    } else {
        (lead - DAY) / BEYOND_A_MONTH + 1
    }
}

/// Returns 1 if a month ends after the day of its solar term, otherwise 0.
fn has_term(lead: u32, time: u32, month: u32) -> u32
    requires lead { lead < 2637842876 }
    requires time { time < 86400000 }
    requires month { month ≤ 34 }
    ensures { result ≡ if ends_by_term lead time month then 0 else 1 }
{
    if lead + (time + BEYOND_30_DAYS * month) % DAY < DAY + BEYOND_A_MONTH * month {
        0
    } else {
        1
    }
}

/// Returns the ordinal month of a month counted from 0, or 0 if the year has no such month.
fn place_in_year(month: u32) -> u8
    ensures { result ≡ if nat_le month 12 then month + 1 else 0 }
{
    if month <= 12 { month as u8 + 1 } else { 0 }
}

/// Returns the ordinal month of the leap month, or 0 without one.
///
/// `time` is the time of day of term 2, and `lead` the time from term 2 to the end of the first month of the year.
fn leap_place(lead: u32, time: u32) -> u8
    requires lead { lead < 2637842876 }
    requires time { time < 86400000 }
    ensures { result ≡ place_from lead time }
{
    let near = first_near_term(lead);
    place_in_year(near + has_term(lead, time, near) + has_term(lead, time, near + 1))
}

/// Returns the time of day at which the month before a month begins, from the time of day at which the month begins.
/// Also returns 1 if the month before has 30 days, otherwise 0.
fn month_before(time: u32) -> (u32, u16)
    requires { time < 86400000 }
    ensures time { result.0 < 86400000 }
    ensures next { (result.0 + 45842876) % 86400000 ≡ time }
    ensures bit { result.1 ≡ (result.0 + 45842876) / 86400000 }
    ensures small { result.1 ≤ 1 }
{
    if time < BEYOND_29_DAYS {
        (time + (DAY - BEYOND_29_DAYS), 1)
    } else {
        (time - BEYOND_29_DAYS, 0)
    }
}

/// Returns the bit of the thirteenth month of a year with a leap month if it has 30 days, from the time of day at which
/// it begins.
fn thirteenth_bit(start: u32, place: u8) -> u16
    requires { start < 86400000 }
    ensures exact { result ≡ if nat_eq place 0 then 0 else (start + 45842876) / 86400000 }
    ensures small { result ≤ 1 }
{
    if place != 0 && DAY - BEYOND_29_DAYS <= start {
        1
    } else {
        0
    }
}

/// Returns the bits of the months of 30 days in a year. `time` is the time of day at which the first month begins,
/// and `place` is the ordinal month of the leap month, or 0 without one.
fn long_months(time: u32, place: u8) -> u16
    requires { time < 86400000 }
    ensures { result ≡ month_bits time 0 (months_of_year place) }
{
    let mut start = (time + BEYOND_29_DAYS * 12) % DAY;
    let mut bits = thirteenth_bit(start, place);
    let mut month: u8 = 12;
    'months: while 0 < month {
        month -= 1;
        let (before, bit) = month_before(start);
        start = before;
        bits = bits * 2 + bit;
    }
    bits
}

/// Returns the mean lunisolar year with a number, at an offset from Greenwich.
///
/// `related_iso`: from -8000000 to 8000000. `utc_offset`: from 27940000 milliseconds (Beijing's mean time) to 32400000.
///
/// Its months are those from the month of solar term 2 to the month of term 13, with a leap month among them or right
/// after them. It starts 0 to 34 days after January 19 of its number, and the next year starts on the day after it.
///
/// ```
/// let year = mean_year(28800000, 2023); // 8 hours from Greenwich
/// assert!(rt; year.related_iso() == 2023);
/// ```
pub fn mean_year(utc_offset: i64, related_iso: i32) -> EastAsianTraditionalYear
    requires offset { IsOffset utc_offset }
    requires year { IsRuleYear related_iso }
    ensures exact { (h : IsOffset utc_offset) → result ≡ mean_traditional_year utc_offset h related_iso }
    ensures year { IsMeanYear utc_offset related_iso result }
    ensures parts { parts_of result ≡ mean_parts utc_offset related_iso }
    ensures near { IsNewYear related_iso result.new_year }
    ensures joins { mean.new_year utc_offset (related_iso +ℤ pos 1) ≡ end_day result }
    ensures months { AreMonths (mean.mean_months utc_offset related_iso) }
    ensures solstice { HasSolsticeMoon utc_offset related_iso }
    ensures leaps { 37 ≤ months_of_three utc_offset related_iso }
{
    let term = second_term(utc_offset, related_iso);
    let (day, time) = day_and_time(term);
    let first = moon(utc_offset, last_moon_by(utc_offset, day));
    let (new_year, start) = day_and_time(first);
    let place = leap_place(lead(first, term), time);
    let lengths = long_months(start, place);
    EastAsianTraditionalYear::from_parts(related_iso, new_year, lengths, place)
}

/// Returns the mean year that contains a valid day, at an offset as in [`mean_year`].
///
/// Each year starts within the ISO year of its number, so the result is the year of the day's ISO year, or the year
/// before.
pub(crate) fn mean_year_containing_rd(utc_offset: i64, rd: RataDie) -> EastAsianTraditionalYear
    requires offset { IsOffset utc_offset }
    requires rd { IsValidDay rd }
    ensures year { IsMeanYear utc_offset result.related_iso result }
    ensures range { IsBetween (neg_ℤ (pos 1000000)) (pos 999999) result.related_iso }
    ensures first { result.new_year ≤ℤ rd }
    ensures last { rd <ℤ end_day result }
{
    let iso_year = gregorian::year_from_fixed(rd);
    let year = mean_year(utc_offset, iso_year);
    if rd.to_i64_date() < year.new_year {
        mean_year(utc_offset, iso_year - 1)
    } else {
        year
    }
}
