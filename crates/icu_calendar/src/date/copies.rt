//! Copies of a date, and dates whose calendar is in a counted pointer.

ghost use Rattle.std.specs.Prelude.{◌≡◌, IsOk, IfOk, IfErr};

use super::Date;
use cal_base::{AsCalendar, Calendar};
use std::alloc::{AllocError, Global};
use std::rc::Rc;

impl<A: AsCalendar + Clone> Date<A>
where
    A::Calendar: Calendar,
{
    /// Returns a copy of the date, with a clone of its calendar.
    ///
    /// The clone has to lead to the same calendar, and must not fail. This holds for every calendar of this library
    /// and for pointers to one. Use [`Date::try_clone`] for a type of your own whose clone may run out of memory.
    ///
    /// # Examples
    ///
    /// ```
    /// let date = Date::from_rata_die(RataDie::new(738946), Iso);
    /// let again = date.clone();
    /// assert!(rt; again.same_date(&date));
    /// ```
    pub fn clone(&self) -> Self
        requires same { (b : A) → A.is_clone self.now.calendar b → A.cal_of b ≡ A.cal_of self.now.calendar }
        requires infallible { A.is_infallible self.now.calendar }
        ensures inner { result.inner ≡ self.now.inner }
        ensures calendar { A.is_clone self.now.calendar result.calendar }
    {
        match self.try_clone() {
            Ok(date) => date,
            Err(_) => unreachable!(),
        }
    }

    /// Returns a copy of the date, with a clone of its calendar that has to lead to the same calendar.
    ///
    /// # Errors
    ///
    /// - [`AllocError`] if the calendar's clone fails with it.
    ///
    /// # Examples
    ///
    /// ```
    /// let date = Date::from_rata_die(RataDie::new(738946), Iso);
    /// let again = date.try_clone()?;
    /// assert!(rt; again.same_date(&date));
    /// ```
    pub fn try_clone(&self) -> Result<Self, AllocError>
        requires { (b : A) → A.is_clone self.now.calendar b → A.cal_of b ≡ A.cal_of self.now.calendar }
        ensures inner { IfOk result (λ d. d.inner ≡ self.now.inner) }
        ensures calendar { IfOk result (λ d. A.is_clone self.now.calendar d.calendar) }
        ensures infallible { A.is_infallible self.now.calendar → IsOk result }
    {
        let calendar = self.calendar.clone()?;
        Ok(Date {
            inner: self.inner,
            calendar,
        })
    }
}

impl<A: AsCalendar + Copy> Date<A>
where
    A::Calendar: Calendar,
{
    /// Moves the date's calendar into a counted pointer, which several dates may share.
    ///
    /// # Errors
    ///
    /// - The date itself, unchanged, if there is no memory for the pointer.
    ///
    /// # Examples
    ///
    /// ```
    /// let date = Date::from_rata_die(RataDie::new(738946), Hebrew);
    /// match date.into_ref_counted(rt.alloc()) {
    ///     Ok(counted) => assert!(rt; counted.day_of_month().0 == 21),
    ///     Err(_) => assert!(rt; false), // no memory
    /// }
    /// ```
    pub fn into_ref_counted(self, alloc: Global) -> Result<Date<Rc<A>>, Date<A>>
        ensures inner { IfOk result (λ d. d.inner ≡ self.inner) }
        ensures calendar { IfOk result (λ d. d.calendar.value ≡ self.calendar) }
        ensures inner_back { IfErr result (λ d. d.inner ≡ self.inner) }
        ensures calendar_back { IfErr result (λ d. d.calendar ≡ self.calendar) }
    {
        let Date { inner, calendar } = self;
        match Rc::new(alloc, calendar) {
            Ok(counted) => Ok(Date {
                inner,
                calendar: counted,
            }),
            Err(_) => Err(Date { inner, calendar }),
        }
    }
}
