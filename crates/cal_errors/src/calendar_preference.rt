//! The calendar to use if a caller names none, or names a Hijri calendar without its kind (UTS 35, the key `ca`).

ghost use Rattle.std.specs.Prelude.{◌≡◌};
ghost use Rattle.cal_errors.specs.Algorithm.{resolved};

use crate::algorithm::{CalendarAlgorithm, HijriCalendarAlgorithm};

/// The defaults for what a caller leaves open.
#[derive(Clone, Copy, Debug, PartialEq, Eq)]
pub struct CalendarPreference {
    /// The algorithm if none is given.
    pub default_algorithm: CalendarAlgorithm,
    /// The kind if the algorithm is `islamic` alone.
    pub default_hijri_algorithm: HijriCalendarAlgorithm,
}

impl CalendarPreference {
    /// Returns the algorithm to use: the default if none is given, the default kind for `islamic` alone, and any
    /// other unchanged.
    ///
    /// ```
    /// let preference = CalendarPreference {
    ///     default_algorithm: CalendarAlgorithm::Gregory,
    ///     default_hijri_algorithm: HijriCalendarAlgorithm::Umalqura,
    /// };
    /// assert!(rt; preference.resolve(None) == CalendarAlgorithm::Gregory);
    /// ```
    pub fn resolve(&self, unresolved: Option<CalendarAlgorithm>) -> CalendarAlgorithm
        ensures { result ≡ resolved self.now unresolved }
    {
        match unresolved {
            None => self.default_algorithm,
            Some(CalendarAlgorithm::Hijri(None)) => {
                CalendarAlgorithm::Hijri(Some(self.default_hijri_algorithm))
            }
            Some(algorithm) => algorithm,
        }
    }
}
