//! Conversion of dates to [`AnyCalendar`], and between calendars chosen at run time.

ghost use Rattle.std.specs.Prelude.{◌≡◌, IsTrue};
ghost use Rattle.cal_types.specs.CalendarList.{IsOn, day_number};
ghost use Rattle.cal_any.specs.AnySystem.{any_compatible, any_date, any_system};

use super::Date;
use crate::into_any_calendar::IntoAnyCalendar;
use cal_any::AnyCalendar;
use cal_base::{AsCalendar, Calendar, Ref};

impl<'t, C: IntoAnyCalendar<'t>> Date<C> {
    /// Converts the date to a date of [`AnyCalendar`], with the calendar in its variant.
    ///
    /// # Examples
    ///
    /// ```
    /// let date = Date::try_new_iso(2024, 3, 1)?.to_any();
    /// ```
    pub fn to_any(self) -> Date<AnyCalendar<'t>>
        ensures calendar { result.calendar ≡ C.in_any self.calendar }
        ensures date { any_date result.calendar result.inner ≡ C.date_of self.calendar self.inner }
        ensures day { let day = day_number (C.system self.calendar).list (C.date_of self.calendar self.inner) in
            day_number (any_system result.calendar).list (any_date result.calendar result.inner) ≡ day }
    {
        let Date { inner, calendar } = self;
        let inner = calendar.date_to_any(&inner);
        Date {
            inner,
            calendar: calendar.to_any(),
        }
    }
}

/// Converts a date as `convert_any` does, for any type of calendar.
fn converted<'a, A: AsCalendar<Calendar = K>, K: Calendar + AsCalendar<Calendar = K>>(
    date: &Date<A>,
    calendar: &'a K,
) -> Date<Ref<'a, K>>
    ensures on { let c = A.cal_of date.now.calendar in
        let shown = K.cal_of calendar.now in
        let day = day_number (K.system c).list (K.date_of c date.now.inner) in
        IsOn (K.system shown).list day (K.date_of shown result.inner) }
    ensures kept { IsTrue (K.compatible (A.cal_of date.now.calendar) (K.cal_of calendar.now)) →
        result.inner ≡ date.now.inner }
    ensures calendar { result.calendar.0.now ≡ calendar.now }
{
    let shown = Ref(calendar);
    match date
        .calendar
        .as_calendar()
        .check_date_compatibility(shown.as_calendar())
    {
        Ok(()) => Date {
            inner: date.inner,
            calendar: shown,
        },
        Err(_) => date.to_calendar(shown),
    }
}

impl<'t, A: AsCalendar<Calendar = AnyCalendar<'t>>> Date<A> {
    /// Converts the date to another calendar. If the two calendars are compatible the inner date is kept; otherwise the
    /// day number stays the same.
    ///
    /// # Examples
    ///
    /// ```
    /// let date = Date::try_new_iso(2024, 3, 1)?.to_any();
    /// let hebrew = AnyCalendar::Hebrew(Hebrew);
    /// let converted = date.convert_any(&hebrew);
    /// assert!(rt; converted.day_of_month().0 == 21); // of Adar I
    /// ```
    pub fn convert_any<'a>(&self, calendar: &'a AnyCalendar<'t>) -> Date<Ref<'a, AnyCalendar<'t>>>
        ensures on { let c = A.cal_of self.now.calendar in
            let day = day_number (any_system c).list (any_date c self.now.inner) in
            IsOn (any_system calendar.now).list day (any_date calendar.now result.inner) }
        ensures kept { IsTrue (any_compatible (A.cal_of self.now.calendar) calendar.now) →
            result.inner ≡ self.now.inner }
        ensures calendar { result.calendar.0.now ≡ calendar.now }
    {
        converted(self, calendar)
    }
}
