//! The rows of a table of Hijri years, as plain data.

ghost use Rattle.std.specs.Prelude.{◌≡◌, ◌↔◌, IsSome, IfSome, IsTrue, min, neg_ℤ, pos, ◌+ℤ◌, ◌-ℤ◌};
ghost use Rattle.cal_days.specs.Day.{IsRuleYear, is_between};
ghost use Rattle.cal_days.specs.Islamic.{islamic_mean_start};
ghost use Rattle.cal_hijri.specs.HijriMonths.{IsNearMean};
ghost use Rattle.cal_hijri.specs.RowStarts.{nearest_rule_year};
ghost use Rattle.cal_hijri.specs.HijriRows.{names_year, row_of_year, row_year};

use crate::hijri_year::HijriYear;
use cal_days::islamic;

/// A year of a [`HijriTable`](crate::HijriTable) as plain data, which a `static` can hold.
///
/// A row names a year if every field is within its range. Every year from -8000000 to 8000000 has exactly one row
/// that names it. [`HijriTable::try_new`](crate::HijriTable::try_new) rejects any other row, and checks whether the
/// rows follow one another.
///
/// The year 1445 begins on 2023-07-19, 5 days after the earliest day. Its months 2, 3, 4, 6, 9 and 12 have 30 days:
///
/// ```
/// static YEAR_1445: HijriRow = HijriRow {
///     extended_year: 1445,
///     long_months: 0x92e,
///     start_offset: 5,
/// };
/// assert!(rt; YEAR_1445.year().extended_year() == 1445);
/// ```
#[derive(Clone, Copy, Debug)]
pub struct HijriRow {
    /// The extended year, from -8000000 to 8000000.
    pub extended_year: i32,
    /// The months of 30 days: bit 0 is set for month 1, up to bit 11 for month 12. The other months have 29 days, and
    /// the bits above are 0.
    pub long_months: u16,
    /// The number of days from the earliest day to the first day of the year, 0 to 10. The earliest day is 5 days
    /// before the start of the mean year.
    pub start_offset: u8,
}

/// Returns whether a year is from -8000000 to 8000000.
fn is_rule_year(year: i32) -> bool
    ensures { result ≡ is_between (neg_ℤ (pos 8000000)) (pos 8000000) year }
{
    -8000000 <= year && year <= 8000000
}

/// Returns the nearest year from -8000000 to 8000000.
fn nearest_rule_year(year: i32) -> i32
    ensures value { result ≡ nearest_rule_year year }
    ensures range { IsRuleYear result }
{
    year.clamp(-8000000, 8000000)
}

/// Returns the day at an offset from the earliest first day of a year. An offset above 10 counts as 10.
fn start_after(year: i32, offset: u8) -> i64
    requires { IsRuleYear year }
    ensures value { result ≡ islamic_mean_start year -ℤ pos 5 +ℤ pos (min offset 10) }
    ensures near { IsNearMean year result }
{
    islamic::mean_start(year).to_i64_date() - 5 + i64::from(offset.min(10))
}

impl HijriRow {
    /// Returns the year that the row names.
    ///
    /// If the row names no year, every field that is out of range counts as the nearest value within its range, and
    /// the bits above bit 11 of [`long_months`](HijriRow::long_months) count as 0.
    ///
    /// # Examples
    ///
    /// ```
    /// let row = HijriRow {
    ///     extended_year: 1445,
    ///     long_months: 0x92e,
    ///     start_offset: 5,
    /// };
    /// assert!(rt; row.year().month_len(1) == 29);
    /// ```
    pub fn year(self) -> HijriYear
        ensures { result ≡ row_year self }
    {
        let extended_year = nearest_rule_year(self.extended_year);
        HijriYear {
            first_day: start_after(extended_year, self.start_offset),
            extended_year,
            long_months: self.long_months % 4096,
        }
    }

    /// Returns whether every field is within its range, so that the row names a year.
    pub(crate) fn names_year(self) -> bool
        ensures { result ≡ names_year self }
    {
        is_rule_year(self.extended_year) && self.long_months < 4096 && self.start_offset <= 10
    }
}

impl HijriYear {
    /// Returns the row that names this year, or `None` if the extended year isn't from -8000000 to 8000000.
    /// [`HijriYear::try_new`] never creates a year outside of this range.
    ///
    /// # Examples
    ///
    /// ```
    /// let row = HijriRow {
    ///     extended_year: 1445,
    ///     long_months: 0x92e,
    ///     start_offset: 5,
    /// };
    /// assert!(rt; row.year().row()?.start_offset == 5);
    /// ```
    pub fn row(self) -> Option<HijriRow>
        ensures some { IsSome result ↔ IsRuleYear self.extended_year }
        ensures exact { IfSome result (λ row. row ≡ row_of_year self) }
        ensures year { IfSome result (λ row. row_year row ≡ self) }
        ensures named { IfSome result (λ row. IsTrue (names_year row)) }
    {
        if self.extended_year < -8000000 || self.extended_year > 8000000 {
            return None;
        }
        let mean = islamic::mean_start(self.extended_year).to_i64_date();
        Some(HijriRow {
            extended_year: self.extended_year,
            long_months: self.long_months,
            start_offset: (self.first_day + 5 - mean) as u8,
        })
    }
}
