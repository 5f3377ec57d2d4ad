//! The years of a Chinese or Korean calendar.

ghost use Rattle.std.specs.Prelude.{◌≡◌, ◌↔◌, ◌<◌, ◌≤◌, ◌^◌, IfSome, IsSome, IsTrue, Some, neg_ℤ, pos};
ghost use Rattle.std.proofs.Common.{rules};
ghost use Rattle.std.specs.Cmp.Rules.{comparing, hashing};
ghost use Rattle.std.specs.Ordering.{int_cmp, int_eq, on, as_partial_cmp};
ghost use Rattle.std.specs.Hash as fed;
ghost use Rattle.cal_days.specs.Day.{IsBetween, IsRuleYear};
ghost use Rattle.cal_east_asian.specs.EastAsianPlaces.{month_days};
ghost use Rattle.cal_east_asian.specs.EastAsianYear.{IsEastAsianYear, IsNewYear, days_after_january_19, is_leap_place, january_19, months_of_year};
ghost use Rattle.cal_east_asian.specs.MonthStarts.{AreYearStarts, HaveLengthsOf, leap_place_read, leap_place_shown, start_at};

use crate::east_asian_months::{days_in_month, months_in_year};
use crate::month_starts::{first_day, is_new_year, leap_place, long_months};
use cal_arith::PackWithMD;
use cal_days::{RataDie, gregorian};
use date_bytes::east_asian;
use std::cmp::Ordering;
use std::hash::{Hash, Hasher};

/// A year of a Chinese or Korean calendar: its number (the ISO year in which it starts), its first day, the lengths
/// of its months, and its leap month.
///
/// The number is from -8000000 to 8000000, and the year starts 0 to 34 days after January 19 of the ISO year of its
/// number. It has 12 months, or 13 with a leap month, whose ordinal month is from 2 to 13. A leap month has the
/// number of the month before it.
///
/// Years are equal, ordered and hashed by the number.
#[derive(Clone, Copy, Debug)]
pub struct EastAsianTraditionalYear {
    /// The first day (rata die).
    pub(crate) new_year: i64,
    /// The number: the ISO year in which the year starts.
    pub(crate) related_iso: i32,
    /// The months of 30 days: bit 0 is set for the first month. The other months have 29 days.
    pub(crate) long_months: u16,
    /// The ordinal month of the leap month, or 0 without one.
    pub(crate) leap_month: u8,
    ghost valid: { IsEastAsianYear related_iso new_year leap_month },
    ghost few: { long_months < 2 ^ months_of_year leap_month },
}

impl PartialEq for EastAsianTraditionalYear {
    ghost eq = { on (λ a. a.related_iso) int_eq };

    ghost laws = { Prim.search (comparing, rules) };

    fn eq(&self, other: &Self) -> bool {
        self.related_iso == other.related_iso
    }
}

impl Eq for EastAsianTraditionalYear {
    ghost laws = { Prim.search (comparing, rules) };
}

impl Ord for EastAsianTraditionalYear {
    ghost cmp = { on (λ a. a.related_iso) int_cmp };

    ghost total = { Prim.search (comparing, rules) };

    ghost matches_partial_cmp = { Prim.search (comparing, rules) };

    ghost matches_eq = { Prim.search (comparing, rules) };

    fn cmp(&self, other: &Self) -> Ordering {
        self.related_iso.cmp(&other.related_iso)
    }
}

impl PartialOrd for EastAsianTraditionalYear {
    ghost partial_cmp = { as_partial_cmp (on (λ a. a.related_iso) int_cmp) };

    ghost laws = { Prim.search (comparing, rules) };

    fn partial_cmp(&self, other: &Self) -> Option<Ordering> {
        Some(self.cmp(other))
    }
}

impl Hash for EastAsianTraditionalYear {
    ghost hash_input = { λ a. fed.i32 a.related_iso };

    ghost respects_eq = { Prim.search (hashing, rules) };

    fn hash<H: Hasher>(&self, state: &mut H) {
        self.related_iso.hash(state);
    }
}

impl EastAsianTraditionalYear {
    /// Creates a year from the first days of its months, and of the first month of the next year.
    ///
    /// `leap_month`: the ordinal month of the leap month. Without a leap month the year has 12 months, and the first
    /// 13 days are read. With one it has 13 months, and all 14 days are read.
    ///
    /// Returns `None` if the number isn't from -8000000 to 8000000, a month has neither 29 nor 30 days, the leap
    /// month isn't from 2 to 13, or the first day isn't 0 to 34 days after January 19 of the ISO year of the number.
    ///
    /// ```
    /// let starts = [RataDie::new(738926); 14]; // no month has a day
    /// assert!(rt; EastAsianTraditionalYear::try_new(2024, starts, None).is_none());
    /// ```
    pub fn try_new(
        related_iso: i32,
        month_starts: [RataDie; 14],
        leap_month: Option<u8>,
    ) -> Option<EastAsianTraditionalYear>
        ensures some { IsSome result ↔ AreYearStarts related_iso month_starts leap_month }
        ensures number { IfSome result (λ y. y.related_iso ≡ related_iso) }
        ensures start { IfSome result (λ y. y.new_year ≡ start_at month_starts 0) }
        ensures leap_month { IfSome result (λ y. leap_place_read leap_month ≡ Some y.leap_month) }
        ensures lengths { IfSome result (λ y. HaveLengthsOf month_starts (months_of_year y.leap_month) y.long_months) }
        ensures few { IfSome result (λ y. y.long_months < 2 ^ months_of_year y.leap_month) }
    {
        let place = leap_place(leap_month)?;
        let new_year = first_day(&month_starts);
        if !is_new_year(related_iso, new_year) {
            return None;
        }
        let long_months = long_months(&month_starts, months_in_year(place))?;
        Some(EastAsianTraditionalYear::from_parts(
            related_iso,
            new_year.to_i64_date(),
            long_months,
            place,
        ))
    }

    /// Returns the number of the year: the ISO year in which it starts.
    ///
    /// ```
    /// assert!(rt; qing_year(1900)?.related_iso() == 1900);
    /// ```
    pub fn related_iso(self) -> i32
        ensures value { result ≡ self.related_iso }
        ensures range { IsRuleYear result }
    {
        self.related_iso
    }

    /// Returns the first day.
    ///
    /// ```
    /// assert!(rt; qing_year(1900)?.new_year().to_i64_date() == 693626); // 1900-01-31
    /// ```
    pub fn new_year(self) -> RataDie
        ensures { result ≡ self.new_year }
    {
        RataDie::new(self.new_year)
    }

    /// Returns the ordinal month of the leap month, from 2 to 13, or `None` if the year has no leap month.
    ///
    /// ```
    /// assert!(rt; qing_year(1900)?.leap_month() == Some(9)); // behind the month 8
    /// ```
    pub fn leap_month(self) -> Option<u8>
        ensures { result ≡ leap_place_shown self.leap_month }
    {
        if self.leap_month >= 1 {
            Some(self.leap_month)
        } else {
            None
        }
    }

    /// Returns the number of months: 12, or 13 in a year with a leap month.
    ///
    /// ```
    /// assert!(rt; qing_year(1900)?.months() == 13);
    /// ```
    pub fn months(self) -> u8
        ensures { result ≡ months_of_year self.leap_month }
    {
        months_in_year(self.leap_month)
    }

    /// Returns the number of days in an ordinal month, 29 or 30. `month`: from 1 to the number of months.
    ///
    /// ```
    /// let year = qing_year(1900)?;
    /// assert!(rt; year.months() == 13);
    /// assert!(rt; year.month_len(13) == 30);
    /// ```
    pub fn month_len(self, month: u8) -> u8
        requires { (1 ≤ month) × (month ≤ months_of_year self.leap_month) }
        ensures { result ≡ month_days self.long_months month }
    {
        days_in_month(self.long_months, month)
    }

    /// Creates a year from its parts.
    pub(crate) fn from_parts(
        related_iso: i32,
        new_year: i64,
        long_months: u16,
        leap_month: u8,
    ) -> EastAsianTraditionalYear
        requires number { IsRuleYear related_iso }
        requires start { IsNewYear related_iso new_year }
        requires place { IsTrue (is_leap_place leap_month) }
        requires few { long_months < 2 ^ months_of_year leap_month }
        ensures number { result.related_iso ≡ related_iso }
        ensures start { result.new_year ≡ new_year }
        ensures lengths { result.long_months ≡ long_months }
        ensures place { result.leap_month ≡ leap_month }
    {
        EastAsianTraditionalYear {
            related_iso,
            new_year,
            long_months,
            leap_month,
        }
    }
}

/// Returns January 19 of an ISO year, which is the earliest first day of the year with its number.
fn january_19(related_iso: i32) -> i64
    requires { IsRuleYear related_iso }
    ensures value { result ≡ january_19 related_iso }
    ensures bound { IsBetween (neg_ℤ (pos 4000000000)) (pos 4000000000) result }
{
    gregorian::year_start(related_iso).to_i64_date() + 18
}

/// Returns the number of days from January 19 of the ISO year `related_iso` to the first day of the year, 0 to 34.
fn days_after_january_19(related_iso: i32, new_year: i64) -> u8
    requires number { IsRuleYear related_iso }
    requires start { IsNewYear related_iso new_year }
    ensures value { result ≡ days_after_january_19 related_iso new_year }
    ensures small { result ≤ 34 }
{
    (new_year - january_19(related_iso)) as u8
}

impl PackWithMD for EastAsianTraditionalYear {
    ghost use Rattle.cal_days.specs.Day.{IsFieldYear};
    ghost use Rattle.cal_arith.specs.Dates.{ymd};
    ghost use Rattle.date_bytes.specs.Bytes.{day_from, month_from};
    ghost use Rattle.date_bytes.specs.EastAsianBytes.{east_asian_bytes};
    ghost use Rattle.cal_east_asian.specs.PackedYears.{packed_year};

    type Packed = [u8; 7];

    ghost stored = { λ y. y.related_iso };

    ghost unpacked = { λ p. ymd (packed_year p) (month_from 3 p) (day_from 3 p) };

    fn pack(self, month: u8, day: u8) -> [u8; 7]
        requires storable { IsFieldYear self.related_iso }
        requires month { (1 ≤ month) × (month ≤ 13) }
        requires day { (1 ≤ day) × (day ≤ 31) }
        ensures bytes { let start = days_after_january_19 self.related_iso self.new_year in
            result ≡ east_asian_bytes self.related_iso self.long_months self.leap_month start month day }
        ensures parts { ymd (packed_year result) (month_from 3 result) (day_from 3 result) ≡ ymd self month day }
    {
        let start = days_after_january_19(self.related_iso, self.new_year);
        east_asian::pack(
            self.related_iso,
            self.long_months,
            self.leap_month,
            start,
            month,
            day,
        )
    }

    fn unpack_year(packed: [u8; 7]) -> EastAsianTraditionalYear {
        let related_iso = east_asian::unpack_year(packed);
        let new_year = january_19(related_iso) + i64::from(east_asian::unpack_start(packed));
        let long_months = east_asian::unpack_long_months(packed);
        let leap_month = east_asian::unpack_leap_month(packed);
        EastAsianTraditionalYear::from_parts(related_iso, new_year, long_months, leap_month)
    }

    fn unpack_month(packed: [u8; 7]) -> u8 {
        east_asian::unpack_month(packed)
    }

    fn unpack_day(packed: [u8; 7]) -> u8 {
        east_asian::unpack_day(packed)
    }
}
