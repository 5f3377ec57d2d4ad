//! Sets of days of the week.

ghost use Rattle.std.specs.Prelude.{◌≡◌};
ghost use Rattle.cal_types.specs.WeekdaySet.{in_set, is_one_of};
ghost use Rattle.cal_types.specs.declared.weekday.Weekday.{Weekday};

use crate::weekday::Weekday;

/// A set of days of the week.
#[derive(Clone, Copy, Debug, PartialEq)]
pub struct WeekdaySet {
    /// Whether each day is in the set, from Sunday on.
    held: [bool; 7],
}

impl WeekdaySet {
    /// Creates the set of some days.
    ///
    /// # Examples
    ///
    /// ```
    /// let weekend = WeekdaySet::new(&[Weekday::Saturday, Weekday::Sunday]);
    /// assert!(rt; weekend.contains(Weekday::Sunday));
    /// ```
    pub const fn new(days: &[Weekday]) -> Self
        ensures { (day : Weekday) → in_set result day ≡ is_one_of days.now day }
    {
        let mut held = [false; 7];
        let mut i = 0;
        while i < days.len() {
            held[days[i].days_since_sunday()] = true;
            i += 1;
        }
        WeekdaySet { held }
    }

    /// Returns `true` if the set contains the day.
    ///
    /// # Examples
    ///
    /// ```
    /// let weekend = WeekdaySet::new(&[Weekday::Saturday, Weekday::Sunday]);
    /// assert!(rt; weekend.contains(Weekday::Sunday));
    /// ```
    pub const fn contains(&self, day: Weekday) -> bool
        ensures { result ≡ in_set self.now day }
    {
        self.held[day.days_since_sunday()]
    }
}
