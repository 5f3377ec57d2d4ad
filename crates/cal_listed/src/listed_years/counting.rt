//! Counting through the listed years, year by year and month by month.

ghost use Rattle.std.specs.Prelude.{◌≡◌, ◌+◌, ◌-◌, ◌<◌, ◌≤◌, length, take, IfSome, MatchOption, pos, ◌+ℤ◌};
ghost use Rattle.cal_types.specs.declared.duration.DateDurationUnit.TheVariants.{Days};
ghost use Rattle.cal_listed.specs.YearList.{days_in, days_in_years};
ghost use Rattle.cal_listed.specs.ListedYears.{IsDateOn, IsDayNumberOf, IsDaysAfterFirst, IsDifferenceOf, IsListed, date_of};

use super::{ListedDate, ListedMonth, ListedYears};
use cal_types::DateDuration;

impl<'a> ListedYears<'a> {
    /// Returns the day number of a date. `None` exactly if its year isn't listed or has no such date.
    pub fn day_number(&self, date: ListedDate) -> Option<i64>
        ensures { IsDayNumberOf self.now (date_of date) result }
    {
        let days = self.days_after_first(date)?;
        Some(self.first_day + i64::from(days))
    }

    /// Returns the date of a day number. `None` exactly if it isn't a day of the listed years.
    pub fn date_on(&self, day: i64) -> Option<ListedDate>
        ensures { IsDateOn self.now day result }
    {
        let all = self.days_before_year(self.years.len());
        if day < self.first_day || day >= self.first_day + i64::from(all) {
            return None;
        }
        let mut left = (day - self.first_day) as u32;
        for index in 0..self.years.len() {
            let months = self.years[index];
            let days = days_in(months);
            if left < days {
                let (month, day) = place_and_day(months, left);
                return Some(ListedDate {
                    year: self.first_year + index as i32,
                    month,
                    day,
                });
            }
            left -= days;
        }
        unreachable!()
    }

    /// Returns the difference of two dates in days. `None` exactly if one of them isn't a date of a listed year.
    pub fn difference_in_days(&self, from: ListedDate, to: ListedDate) -> Option<DateDuration>
        ensures { IsDifferenceOf self.now (date_of from) (date_of to) Days result }
    {
        let start = self.days_after_first(from)?;
        let end = self.days_after_first(to)?;
        Some(DateDuration {
            is_negative: end < start,
            years: 0,
            months: 0,
            weeks: 0,
            days: end.abs_diff(start),
        })
    }

    /// Returns how many days after the first day a date lies. `None` exactly if its year isn't listed or has no
    /// such date.
    fn days_after_first(&self, date: ListedDate) -> Option<u32>
        ensures value { IsDaysAfterFirst self.now (date_of date) result }
        ensures bound { IfSome result (λ n. n ≤ 33153570) }
    {
        let ListedDate { year, month, day } = date;
        let index = self.index_of(year)?;
        let months = self.years[index];
        let place = usize::from(month);
        if place == 0 || place > months.len() || day == 0 || day > months[place - 1].days {
            return None;
        }
        Some(self.days_before_year(index) + days_in(&months[..place - 1]) + u32::from(day - 1))
    }

    /// Where a year stands in the list, from 0.
    fn index_of(&self, year: i32) -> Option<usize>
        ensures { MatchOption result (IsListed self.now year → ⊥)
            (λ k. (k < length self.now.years.now) × (year ≡ self.now.first_year +ℤ pos k)) }
    {
        let after = i64::from(year) - i64::from(self.first_year);
        let index = usize::try_from(after).ok()?;
        if index < self.years.len() {
            Some(index)
        } else {
            None
        }
    }

    /// Returns the days of the listed years before the one at `index`.
    fn days_before_year(&self, index: usize) -> u32
        requires { index ≤ length self.now.years.now }
        ensures value { result ≡ days_in_years (take index self.now.years.now) }
        ensures bound { result ≤ 33150000 }
    {
        let mut days = 0;
        for k in 0..index {
            days += days_in(self.years[k]);
        }
        days
    }
}

/// Returns the days of at most 13 months.
fn days_in(months: &[ListedMonth]) -> u32
    requires { length months.now ≤ 13 }
    ensures value { result ≡ days_in months.now }
    ensures bound { result ≤ 3315 }
{
    let mut days = 0;
    for m in months {
        days += u32::from(m.days);
    }
    days
}

/// Returns the place of the month, from 1, and the day of it that comes after `passed` days of some months.
fn place_and_day(months: &[ListedMonth], passed: u32) -> (u8, u8)
    requires few { length months.now ≤ 13 }
    requires within { passed < days_in months.now }
    ensures place { (1 ≤ result.0) × (result.0 ≤ length months.now) }
    ensures day { 1 ≤ result.1 }
    ensures within { passed < days_in (take result.0 months.now) }
    ensures value { days_in (take (result.0 - 1) months.now) + (result.1 - 1) ≡ passed }
{
    let mut left = passed;
    for i in 0..months.len() {
        let days = u32::from(months[i].days);
        if left < days {
            return (i as u8 + 1, left as u8 + 1);
        }
        left -= days;
    }
    unreachable!()
}
