//! The years of a Hijri calendar.

ghost use Rattle.std.specs.Prelude.{◌≡◌, ◌<◌, ◌≤◌, ◌↔◌, IsTrue, IsSome, IfSome, pos};
ghost use Rattle.std.proofs.Common.{rules};
ghost use Rattle.std.specs.Cmp.Rules.{comparing, hashing};
ghost use Rattle.std.specs.Ordering.{int_cmp, int_eq, on, as_partial_cmp};
ghost use Rattle.std.specs.Hash as fed;
ghost use Rattle.cal_days.specs.Day.{IsBetween, IsRuleYear};
ghost use Rattle.cal_hijri.specs.MonthStarts.{AreMonthStarts, HasLengthsOf, HaveMonthLengths, start_at};
ghost use Rattle.cal_hijri.specs.HijriMonths.{IsNearMean, month_days, prior_days};

use cal_arith::PackWithMD;
use cal_days::{RataDie, islamic};
use date_bytes::hijri;
use std::cmp::Ordering;
use std::hash::{Hash, Hasher};

/// A year of a Hijri calendar: its extended year, its first day, and which of its twelve months have 30 days and which
/// 29.
///
/// The first day is at most 5 days before or after the start of the mean year. Years are equal, ordered and hashed by
/// the extended year.
#[derive(Clone, Copy, Debug)]
pub struct HijriYear {
    pub(crate) first_day: i64,
    pub(crate) extended_year: i32,
    /// The months of 30 days: bit 0 is set for month 1, up to bit 11 for month 12.
    pub(crate) long_months: u16,
    ghost near: { IsNearMean extended_year first_day },
    ghost twelve: { long_months < 4096 },
}

impl HijriYear {
    /// Creates a year from the first days of its months, and of the first month of the next year.
    ///
    /// Returns `None` if the extended year isn't from -8000000 to 8000000, a month has neither 29 nor 30 days, or the
    /// first day is more than 5 days before or after the start of the mean year.
    ///
    /// ```
    /// let starts = [RataDie::new(738720); 13]; // no month has a day
    /// assert!(rt; HijriYear::try_new(1445, starts).is_none());
    /// ```
    pub fn try_new(extended_year: i32, month_starts: [RataDie; 13]) -> Option<HijriYear>
        ensures some { IsSome result ↔ AreMonthStarts extended_year month_starts }
        ensures number { IfSome result (λ y. y.extended_year ≡ extended_year) }
        ensures first_day { IfSome result (λ y. y.first_day ≡ start_at month_starts 0) }
        ensures months { IfSome result (λ y. HasLengthsOf month_starts y.long_months) }
        ensures twelve { IfSome result (λ y. y.long_months < 4096) }
    {
        let first_day = month_starts[0];
        if !is_near_mean(extended_year, first_day) {
            return None;
        }
        let long_months = long_months(&month_starts)?;
        Some(HijriYear {
            extended_year,
            first_day: first_day.to_i64_date(),
            long_months,
        })
    }

    /// Returns the extended year.
    ///
    /// ```
    /// static YEAR_1445: HijriRow = HijriRow {
    ///     extended_year: 1445,
    ///     long_months: 0x92e,
    ///     start_offset: 5,
    /// };
    /// assert!(rt; YEAR_1445.year().extended_year() == 1445);
    /// ```
    pub fn extended_year(self) -> i32
        ensures { result ≡ self.extended_year }
    {
        self.extended_year
    }

    /// Returns the first day.
    ///
    /// ```
    /// let row = HijriRow {
    ///     extended_year: 1445,
    ///     long_months: 0x92e,
    ///     start_offset: 5,
    /// };
    /// assert!(rt; row.year().new_year().to_i64_date() == 738720); // 2023-07-19
    /// ```
    pub fn new_year(self) -> RataDie
        ensures { result ≡ self.first_day }
    {
        RataDie::new(self.first_day)
    }

    /// Returns the number of days in a month, 29 or 30. `month`: from 1 to 12.
    ///
    /// ```
    /// let row = HijriRow {
    ///     extended_year: 1445,
    ///     long_months: 0x92e,
    ///     start_offset: 5,
    /// };
    /// assert!(rt; row.year().month_len(1) == 29);
    /// ```
    pub fn month_len(self, month: u8) -> u8
        requires { (1 ≤ month) × (month ≤ 12) }
        ensures { result ≡ month_days self.long_months month }
    {
        days_in_month(self.long_months, month)
    }
}

/// Returns whether a year is from -8000000 to 8000000, and its first day is at most 5 days from the start of the mean
/// year.
fn is_near_mean(extended_year: i32, first_day: RataDie) -> bool
    ensures { IsTrue result ↔ (IsRuleYear extended_year × IsNearMean extended_year first_day) }
{
    if extended_year < -8000000 || extended_year > 8000000 {
        return false;
    }
    let since = first_day.since(islamic::mean_start(extended_year));
    -5 <= since && since <= 5
}

/// Returns whether a month may have this number of days.
fn is_month_length(days: i64) -> bool
    ensures { IsTrue result ↔ IsBetween (pos 29) (pos 30) days }
{
    29 <= days && days <= 30
}

/// Returns the bits of the months of 30 days, from the first days of the months and of the next year, or `None` if a
/// month has neither 29 nor 30 days.
fn long_months(starts: &[RataDie; 13]) -> Option<u16>
    ensures some { IsSome result ↔ HaveMonthLengths starts.now 0 }
    ensures months { IfSome result (λ long. HasLengthsOf starts.now long) }
    ensures twelve { IfSome result (λ long. long < 4096) }
{
    let mut long_months = 0;
    let mut month = 12;
    'months: while month > 0 {
        let days = starts[month].since(starts[month - 1]);
        if !is_month_length(days) {
            return None;
        }
        long_months = 2 * long_months + (days - 29) as u16;
        month -= 1;
    }
    Some(long_months)
}

/// Returns the number of days in a month, 1 to 12: 30 if its bit is set, otherwise 29.
pub(crate) fn days_in_month(long_months: u16, month: u8) -> u8
    requires { (1 ≤ month) × (month ≤ 12) }
    ensures value { result ≡ month_days long_months month }
    ensures most { result ≤ 30 }
{
    29 + ((long_months >> (month - 1)) % 2) as u8
}

/// Returns the number of days in the year before a month, 1 to 12. For month 13, returns the number of days in the
/// year.
pub(crate) fn days_before_month(long_months: u16, month: u8) -> u16
    requires { (1 ≤ month) × (month ≤ 13) }
    ensures value { result ≡ prior_days long_months month }
    ensures most { result ≤ 360 }
{
    let mut days = 0;
    let mut place = 1;
    'months: while place < month {
        days += u16::from(days_in_month(long_months, place));
        place += 1;
    }
    days
}

impl PartialEq for HijriYear {
    ghost eq = { on (λ a. a.extended_year) int_eq };

    ghost laws = { Prim.search (comparing, rules) };

    fn eq(&self, other: &Self) -> bool {
        self.extended_year == other.extended_year
    }
}

impl Eq for HijriYear {
    ghost laws = { Prim.search (comparing, rules) };
}

impl Ord for HijriYear {
    ghost cmp = { on (λ a. a.extended_year) int_cmp };

    ghost total = { Prim.search (comparing, rules) };

    ghost matches_partial_cmp = { Prim.search (comparing, rules) };

    ghost matches_eq = { Prim.search (comparing, rules) };

    fn cmp(&self, other: &Self) -> Ordering {
        self.extended_year.cmp(&other.extended_year)
    }
}

impl PartialOrd for HijriYear {
    ghost partial_cmp = { as_partial_cmp (on (λ a. a.extended_year) int_cmp) };

    ghost laws = { Prim.search (comparing, rules) };

    fn partial_cmp(&self, other: &Self) -> Option<Ordering> {
        Some(self.cmp(other))
    }
}

impl Hash for HijriYear {
    ghost hash_input = { λ a. fed.i32 a.extended_year };

    ghost respects_eq = { Prim.search (hashing, rules) };

    fn hash<H: Hasher>(&self, state: &mut H) {
        self.extended_year.hash(state);
    }
}

impl PackWithMD for HijriYear {
    ghost use Rattle.std.specs.Prelude.{◌-ℤ◌, ◌≤◌};
    ghost use Rattle.cal_days.specs.Day.{IsFieldYear};
    ghost use Rattle.cal_days.specs.Islamic.{islamic_mean_start};
    ghost use Rattle.cal_arith.specs.Dates.{ymd};
    ghost use Rattle.date_bytes.specs.Bytes.{day_from, month_from};
    ghost use Rattle.date_bytes.specs.HijriBytes.{hijri_bytes};
    ghost use Rattle.cal_hijri.specs.PackedYears.{packed_year};

    type Packed = [u8; 6];

    ghost stored = { λ y. y.extended_year };

    ghost unpacked = { λ p. ymd (packed_year p) (month_from 2 p) (day_from 2 p) };

    fn pack(self, month: u8, day: u8) -> [u8; 6]
        requires storable { IsFieldYear self.extended_year }
        requires month { (1 ≤ month) × (month ≤ 13) }
        requires day { (1 ≤ day) × (day ≤ 31) }
        ensures bytes { let offset = self.first_day -ℤ islamic_mean_start self.extended_year in
            result ≡ hijri_bytes self.extended_year self.long_months offset month day }
        ensures parts { ymd (packed_year result) (month_from 2 result) (day_from 2 result) ≡ ymd self month day }
    {
        let offset = self.first_day - islamic::mean_start(self.extended_year).to_i64_date();
        hijri::pack(
            self.extended_year,
            self.long_months,
            offset as i8,
            month,
            day,
        )
    }

    fn unpack_year(packed: [u8; 6]) -> HijriYear {
        let extended_year = hijri::unpack_year(packed);
        let mean = islamic::mean_start(extended_year).to_i64_date();
        HijriYear {
            first_day: mean + i64::from(hijri::unpack_offset(packed)),
            extended_year,
            long_months: hijri::unpack_long_months(packed),
        }
    }

    fn unpack_month(packed: [u8; 6]) -> u8 {
        hijri::unpack_month(packed)
    }

    fn unpack_day(packed: [u8; 6]) -> u8 {
        hijri::unpack_day(packed)
    }
}
