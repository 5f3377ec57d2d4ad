//! Windows: days in a row.

ghost use Rattle.std.specs.Prelude.{◌≡◌};
ghost use Rattle.cal_types.specs.Windows.{IsWindow};

use cal_days::RataDie;
use cal_days::ranges::is_valid_day;

/// The days from a first to a last one, both included and valid: from -365242499 to 365242134.
#[derive(Clone, Copy, Debug, PartialEq, Eq)]
pub struct Window {
    first: i64,
    last: i64,
    ghost days: { IsWindow first last },
}

impl Window {
    ghost use Rattle.std.specs.Prelude.{◌↔◌, IsSome, IfSome, IsTrue};
    ghost use Rattle.cal_days.specs.Day.{IsBetween};
    ghost use Rattle.cal_types.specs.WindowDays.{IsAfter};

    /// Creates a window. Returns `None` exactly if one of the two days isn't from -365242499 to 365242134, or if the
    /// first comes after the last.
    ///
    /// # Examples
    ///
    /// ```
    /// let year = Window::try_new(RataDie::new(738886), RataDie::new(739251))?;
    /// assert!(rt; year.contains(RataDie::new(738946)));
    /// ```
    pub fn try_new(first: RataDie, last: RataDie) -> Option<Window>
        ensures exact { IsSome result ↔ IsWindow first last }
        ensures days { IfSome result (λ w. (w.first ≡ first) × (w.last ≡ last)) }
    {
        let first = first.to_i64_date();
        let last = last.to_i64_date();
        if !is_valid_day(first) || !is_valid_day(last) || first > last {
            return None;
        }
        Some(Window { first, last })
    }

    /// Returns the first day.
    ///
    /// # Examples
    ///
    /// ```
    /// let year = Window::try_new(RataDie::new(738886), RataDie::new(739251))?;
    /// assert!(rt; year.first().to_i64_date() == 738886); // 2024-01-01
    /// ```
    pub fn first(self) -> RataDie
        ensures { result ≡ self.first }
    {
        RataDie::new(self.first)
    }

    /// Returns the last day.
    ///
    /// # Examples
    ///
    /// ```
    /// let year = Window::try_new(RataDie::new(738886), RataDie::new(739251))?;
    /// assert!(rt; year.last().to_i64_date() == 739251); // 2024-12-31
    /// ```
    pub fn last(self) -> RataDie
        ensures { result ≡ self.last }
    {
        RataDie::new(self.last)
    }

    /// Returns the first and the last day.
    ///
    /// # Examples
    ///
    /// ```
    /// let year = Window::try_new(RataDie::new(738886), RataDie::new(739251))?;
    /// assert!(rt; year.ends().0.to_i64_date() == 738886);
    /// ```
    pub fn ends(&self) -> (RataDie, RataDie)
        ensures first { result.0 ≡ self.now.first }
        ensures last { result.1 ≡ self.now.last }
    {
        (RataDie::new(self.first), RataDie::new(self.last))
    }

    /// Returns `true` if the window contains a day.
    ///
    /// # Examples
    ///
    /// ```
    /// let year = Window::try_new(RataDie::new(738886), RataDie::new(739251))?;
    /// assert!(rt; year.contains(RataDie::new(738946)));
    /// ```
    pub fn contains(&self, day: RataDie) -> bool
        ensures { IsTrue result ↔ IsBetween self.now.first self.now.last day }
    {
        let day = day.to_i64_date();
        self.first <= day && day <= self.last
    }

    /// Returns the part of the window after one of its days, or `None` if that day is the last.
    ///
    /// # Examples
    ///
    /// ```
    /// let year = Window::try_new(RataDie::new(738886), RataDie::new(739251))?;
    /// assert!(rt; year.contains(RataDie::new(738946)));
    /// assert!(rt; year.after(RataDie::new(738946))?.first().to_i64_date() == 738947);
    /// ```
    pub fn after(&self, day: RataDie) -> Option<Window>
        requires { IsBetween self.now.first self.now.last day }
        ensures { IsAfter self.now day result }
    {
        let next = RataDie::new(day.to_i64_date() + 1);
        Window::try_new(next, self.last())
    }
}
