//! The first day of the week and the weekend, as in CLDR's week data of a region (UTS 35).

ghost use Rattle.std.specs.Prelude.{◌≡◌};
ghost use Rattle.std.specs.Iterator.{YieldsFirst, item_count};
ghost use Rattle.cal_types.specs.WeekdaySet.{days_of_week, weekdays_left};

use crate::weekday::Weekday;
use crate::weekday_set::WeekdaySet;

/// The first day of the week, and the weekend.
#[derive(Clone, Copy, Debug)]
pub struct WeekInformation {
    /// The first day of the week.
    pub first_weekday: Weekday,
    /// The days of the weekend.
    pub weekend: WeekdaySet,
}

impl WeekInformation {
    /// Creates a `WeekInformation` from the first day of the week and the weekend.
    ///
    /// # Examples
    ///
    /// ```
    /// let weekend = WeekdaySet::new(&[Weekday::Saturday, Weekday::Sunday]);
    /// let weeks = WeekInformation::new(Weekday::Monday, weekend);
    /// ```
    pub fn new(first_weekday: Weekday, weekend: WeekdaySet) -> Self
        ensures first { result.first_weekday ≡ first_weekday }
        ensures weekend { result.weekend ≡ weekend }
    {
        WeekInformation {
            first_weekday,
            weekend,
        }
    }

    /// Returns the days of the weekend, each once, in the order of the week.
    ///
    /// # Examples
    ///
    /// ```
    /// let weekend = WeekdaySet::new(&[Weekday::Saturday, Weekday::Sunday]);
    /// let weeks = WeekInformation::new(Weekday::Monday, weekend);
    /// assert!(rt; weeks.weekend().next() == Some(Weekday::Saturday));
    /// ```
    pub fn weekend(self) -> WeekdaySetIterator
        ensures { weekdays_left result ≡ days_of_week self.weekend self.first_weekday }
    {
        WeekdaySetIterator {
            set: self.weekend,
            next: self.first_weekday,
            left: 7,
        }
    }
}

/// An iterator over the days of a set, each once, in the order of a week.
#[derive(Clone, Copy, Debug, PartialEq)]
pub struct WeekdaySetIterator {
    set: WeekdaySet,
    /// The day to look at next.
    next: Weekday,
    /// The number of days still to look at.
    left: u8,
}

impl Iterator for WeekdaySetIterator {
    type Item = Weekday;

    ghost next_gives = { YieldsFirst weekdays_left };

    ghost remaining = { item_count weekdays_left };

    fn next(&mut self) -> Option<Weekday> {
        while self.left > 0 {
            let day = self.next;
            self.next = day.next();
            self.left -= 1;
            if self.set.contains(day) {
                return Some(day);
            }
        }
        None
    }
}
