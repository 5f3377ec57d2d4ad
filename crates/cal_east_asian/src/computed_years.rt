//! The years of China and Korea without a row in a table.

ghost use Rattle.std.specs.Prelude.{◌≡◌, pos, neg_ℤ, ◌≤ℤ◌, ◌<ℤ◌};
ghost use Rattle.cal_days.specs.Day.{IsBetween, IsRuleYear, IsValidDay};
ghost use Rattle.cal_days.specs.Sums.{span};
ghost use Rattle.cal_east_asian.specs.laws.ComputedLaws as computed;
ghost use Rattle.cal_east_asian.specs.ComputedYears as years;
ghost use Rattle.cal_east_asian.specs.ComputedYears.{beijing_offset, computed_month_count, computed_parts};
ghost use Rattle.cal_east_asian.specs.EastAsianYears.{end_day, parts_of};
ghost use Rattle.cal_east_asian.specs.MeanTraditionalYears.{IsMeanYear};
ghost use Rattle.cal_east_asian.specs.MeanYears.{IsOffset};
ghost use Rattle.cal_east_asian.specs.QingYears.{IsQingNumber, IsQingYear};

use crate::east_asian_traditional_year::EastAsianTraditionalYear;
use crate::mean_moons::first_moon;
use crate::mean_years::mean_year;
use crate::qing_years::qing_year;
use crate::sides::Side;
use cal_days::{RataDie, gregorian};

/// Beijing's mean time, in milliseconds from Greenwich.
const BEIJING_MEAN_TIME: i64 = 27_940_000;

/// The number of the mean new moon with which the year 1900 begins.
const FIRST_MOON_OF_1900: i64 = -1236;

/// Returns the standard time from 1912 on, in milliseconds from Greenwich.
fn standard_offset(side: Side) -> i64
    ensures exact { result ≡ years.standard_offset side }
    ensures offset { IsOffset result }
{
    match side {
        Side::China => 28_800_000,
        Side::Korea => 32_400_000,
    }
}

/// Returns the computed year with a number from -8000000 to 8000000.
///
/// From 1912 on it is the mean year at the standard time. From 1900 to 1911 it is the year of the Qing calendar.
/// Before 1900 it is the mean year at Beijing's mean time.
pub(crate) fn computed_year(side: Side, related_iso: i32) -> EastAsianTraditionalYear
    requires { IsRuleYear related_iso }
    ensures exact { result ≡ computed.computed_year side related_iso }
    ensures number { result.related_iso ≡ related_iso }
    ensures parts { parts_of result ≡ computed_parts side related_iso }
    ensures from_1912 { pos 1912 ≤ℤ related_iso → IsMeanYear (years.standard_offset side) related_iso result }
    ensures from_1900 { IsQingNumber related_iso → IsQingYear related_iso result }
    ensures before_1900 { related_iso <ℤ pos 1900 → IsMeanYear beijing_offset related_iso result }
{
    if related_iso >= 1912 {
        return mean_year(standard_offset(side), related_iso);
    }
    match qing_year(related_iso) {
        Some(year) => year,
        None => mean_year(BEIJING_MEAN_TIME, related_iso),
    }
}

/// Returns the computed year that contains a valid day.
///
/// Each year starts within the ISO year of its number, so the result is the year of the day's ISO year, or the year
/// before.
pub(crate) fn computed_year_containing_rd(side: Side, rd: RataDie) -> EastAsianTraditionalYear
    requires { IsValidDay rd }
    ensures exact { result ≡ computed.computed_year side result.related_iso }
    ensures range { IsBetween (neg_ℤ (pos 1000000)) (pos 999999) result.related_iso }
    ensures first { result.new_year ≤ℤ rd }
    ensures last { rd <ℤ end_day result }
{
    let iso_year = gregorian::year_from_fixed(rd);
    let year = computed_year(side, iso_year);
    if rd.to_i64_date() < year.new_year {
        computed_year(side, iso_year - 1)
    } else {
        year
    }
}

/// Returns the number of the mean new moon with which a computed year begins.
///
/// The Qing years also begin and end with mean new moons. From 1900 on, every third of them has a leap month.
fn computed_first_moon(side: Side, year: i32) -> i64
    requires { IsRuleYear year }
    ensures exact { result ≡ computed.computed_first_moon side year }
    ensures near { IsBetween (neg_ℤ (pos 110000000)) (pos 110000000) result }
{
    if year >= 1912 {
        return first_moon(standard_offset(side), year);
    }
    if year < 1900 {
        return first_moon(BEIJING_MEAN_TIME, year);
    }
    let years = (year - 1900) as u32;
    i64::from(12 * years + (years + 2) / 3) + FIRST_MOON_OF_1900
}

/// Returns the number of months in the computed years from `from` up to the year before `to`.
///
/// Both are from -8000000 to 8000000. The number is negative if `to` is earlier.
pub(crate) fn computed_months_between(side: Side, from: i32, to: i32) -> i64
    requires from { IsRuleYear from }
    requires to { IsRuleYear to }
    ensures { result ≡ span (computed_month_count side) from to }
{
    computed_first_moon(side, to) - computed_first_moon(side, from)
}
