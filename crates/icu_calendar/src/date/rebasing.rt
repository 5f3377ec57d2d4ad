//! Conversion of stored dates to a calendar with other tables.

ghost use Rattle.std.specs.Prelude.{◌≡◌};
ghost use Rattle.cal_types.specs.DateOrder.{date_eq};
ghost use Rattle.icu_calendar.specs.Rebasing.{IsRebased};

use super::Date;
use cal_base::{AsCalendar, Calendar};

/// A date that was converted to another calendar by its day number, and whether its fields changed.
#[derive(Drop)]
pub struct Rebased<A: AsCalendar>
where
    A::Calendar: Calendar,
{
    /// The date with the same day number in the other calendar.
    pub date: Date<A>,
    /// Whether the extended year, the ordinal month or the day of the month changed.
    pub moved: bool,
}

impl<A: AsCalendar> Date<A>
where
    A::Calendar: Calendar,
{
    /// Converts the date to another calendar by its day number, and returns whether its extended year, ordinal month
    /// or day of the month changed. Use it to update stored dates after a table of years was lengthened: dates whose
    /// year isn't among the added rows don't change.
    ///
    /// The old date stays as it is. Dates under the two tables aren't compatible.
    ///
    /// Under Umm al-Qura with the row of 1445 alone, day number 739105 is 1446-02-01. With the row of 1446 as well, it
    /// is 1446-02-02:
    ///
    /// # Examples
    ///
    /// ```
    /// let longer = Hijri::new_umm_al_qura(table.lengthened(&rows)?);
    /// let rebased = stored.rebase(longer);
    /// assert!(rt; rebased.moved && rebased.date.day_of_month().0 == 2);
    /// ```
    pub fn rebase<A2: AsCalendar>(&self, calendar: A2) -> Rebased<A2>
    where
        A2::Calendar: Calendar,
        ensures rebased { let c = A.cal_of self.now.calendar in let d = A2.cal_of calendar in
            let t = A.Calendar.date_of c self.now.inner in let u = A2.Calendar.date_of d result.date.inner in
            IsRebased (A.Calendar.system c).list (A2.Calendar.system d).list t u result.moved }
        ensures calendar { result.date.calendar ≡ calendar }
    {
        let date = self.to_calendar(calendar);
        let moved = !self.reads_as(&date);
        Rebased { date, moved }
    }

    /// Returns the extended year, for `reads_as`.
    fn extended_year(&self) -> i32
        ensures { result ≡ (A.Calendar.date_of (A.cal_of self.now.calendar) self.now.inner).year }
    {
        self.calendar.as_calendar().extended_year(&self.inner)
    }

    /// Returns the ordinal month, for `reads_as`.
    fn ordinal_month(&self) -> u8
        ensures { result ≡ (A.Calendar.date_of (A.cal_of self.now.calendar) self.now.inner).month }
    {
        self.month().ordinal
    }

    /// Returns whether the two dates have the same extended year, ordinal month and day of the month.
    fn reads_as<B: AsCalendar>(&self, other: &Date<B>) -> bool
    where
        B::Calendar: Calendar,
        ensures { let t = A.Calendar.date_of (A.cal_of self.now.calendar) self.now.inner in
            let u = B.Calendar.date_of (B.cal_of other.now.calendar) other.now.inner in
            result ≡ date_eq t u }
    {
        self.extended_year() == other.extended_year()
            && self.ordinal_month() == other.ordinal_month()
            && self.day_of_month().0 == other.day_of_month().0
    }
}
