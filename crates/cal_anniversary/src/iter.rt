//! An iterator over the anniversaries in a window.

ghost use Rattle.std.specs.Prelude.{◌≡◌, Some};
ghost use Rattle.cal_types.specs.MonthParts.{month_parts};
ghost use Rattle.cal_anniversary.specs.Asking.{IsAsked};
ghost use Rattle.cal_anniversary.specs.Listing.{IsListing};

use crate::window_years::years_of;
use crate::yearly_day::{YearlyDay, first_in_years};
use cal_base::Calendar;
use cal_days::RataDie;
use cal_types::Window;

/// The anniversaries of a month and a day in a window: an iterator over their days, in order.
///
/// [`anniversaries`](crate::anniversaries()) creates it. An item computes one date for every year it passes: a single
/// date if every year has the month and the day. If no year has them, the first call goes through every year of the
/// window. The iterator allocates no memory.
#[derive(Drop)]
pub struct Anniversaries<C: Calendar> {
    calendar: C,
    asked: YearlyDay,
    /// The rest of the window.
    rest: Option<Window>,
    /// The year to look at next.
    year: i32,
    /// The year of the window's last day.
    last_year: i32,
    ghost listing: { IsListing (C.system calendar).list asked rest year last_year },
}

impl<C: Calendar> Anniversaries<C> {
    /// Creates an iterator over all anniversaries in the window.
    pub(crate) fn new(calendar: C, asked: YearlyDay, window: Window) -> Anniversaries<C>
        requires { IsAsked (C.system calendar).list (month_parts asked.month) asked.day }
        ensures calendar { result.calendar ≡ calendar }
        ensures asked { result.asked ≡ asked }
        ensures rest { result.rest ≡ Some window }
    {
        let years = years_of(&calendar, window);
        Anniversaries {
            calendar,
            asked,
            rest: Some(window),
            year: years.first,
            last_year: years.last,
        }
    }

    /// Returns the rest of the window: the days after the last item, or the whole window before the first item.
    ///
    /// Returns `None` if the last item was on the window's last day, or if `next` has returned `None`. Listing the
    /// anniversaries in the rest continues this list.
    ///
    /// # Examples
    ///
    /// ```
    /// let window = Window::try_new(RataDie::new(738521), RataDie::new(739616))?;
    /// let hebrew = AnyCalendar::Hebrew(Hebrew);
    /// let mut days = anniversaries(hebrew, Month::leap(5), 10, Leaping::Constrain, window).ok()?;
    /// assert!(rt; days.next()?.to_i64_date() == 738582); // 2023-03-03
    /// assert!(rt; days.next()?.to_i64_date() == 738935); // 2024-02-19
    /// assert!(rt; days.next()?.to_i64_date() == 739320); // 2025-03-10
    /// assert!(rt; days.rest()?.first().to_i64_date() == 739321);
    /// ```
    pub fn rest(&self) -> Option<Window>
        ensures { result ≡ self.now.rest }
    {
        self.rest
    }
}

impl<C: Calendar> Iterator for Anniversaries<C> {
    ghost use Rattle.std.specs.Iterator.{YieldsFirst, item_count};
    ghost use Rattle.cal_anniversary.specs.Listing.{days_left, GoesOn};

    type Item = RataDie;

    ghost next_gives = { λ s r t. YieldsFirst (λ a. days_left (C.system a.calendar).list a.asked a.rest) s r t
        × GoesOn s.calendar t.calendar s.asked t.asked s.rest r t.rest };

    ghost remaining = { item_count (λ a. days_left (C.system a.calendar).list a.asked a.rest) };

    fn next(&mut self) -> Option<RataDie> {
        let window = self.rest?;
        match first_in_years(
            &self.calendar,
            self.asked,
            window,
            self.year,
            self.last_year,
        ) {
            Some(found) => {
                self.rest = window.after(found.day);
                self.year = found.year + 1;
                Some(found.day)
            }
            None => {
                self.rest = None;
                None
            }
        }
    }
}
