//! Recurrence rules.

ghost use Rattle.std.specs.Prelude.{◌≡◌, ◌<◌};

use crate::frequency::Frequency;
use crate::month_set::MonthSet;
use crate::place_set::PlaceSet;
use crate::skip::Skip;
use crate::weekday_places::WeekdayPlaces;
use cal_days::RataDie;
use cal_types::Weekday;

/// A recurrence rule over the dates of a calendar (RFC 5545, 3.3.10; RFC 7529).
///
/// Its lists are sets: the order of their values and repeated values don't matter. A part that is missing is an empty
/// set. No memory is taken.
#[derive(Clone, Copy, Debug, PartialEq)]
pub struct RecurrenceRule {
    pub(crate) frequency: Frequency,
    pub(crate) interval: u32,
    pub(crate) count: Option<u32>,
    pub(crate) until: Option<RataDie>,
    pub(crate) months: MonthSet,
    pub(crate) month_days: PlaceSet<1>,
    pub(crate) year_days: PlaceSet<7>,
    pub(crate) weeks: PlaceSet<1>,
    pub(crate) weekdays: WeekdayPlaces,
    pub(crate) positions: PlaceSet<7>,
    pub(crate) week_start: Weekday,
    pub(crate) skip: Skip,
    ghost every: { 0 < interval },
}

impl RecurrenceRule {
    /// Returns FREQ: how often the rule recurs.
    pub const fn frequency(&self) -> Frequency
        ensures { result ≡ self.now.frequency }
    {
        self.frequency
    }

    /// Returns INTERVAL: from how many periods one is taken. It is from 1 to 999999999.
    pub const fn interval(&self) -> u32
        ensures { result ≡ self.now.interval }
    {
        self.interval
    }

    /// Returns COUNT: the number of occurrences, from 1 to 999999999.
    pub const fn count(&self) -> Option<u32>
        ensures { result ≡ self.now.count }
    {
        self.count
    }

    /// Returns UNTIL: the last day on which an occurrence may fall, in the years 0 to 9999 of the Gregorian calendar.
    pub const fn until(&self) -> Option<RataDie>
        ensures { result ≡ self.now.until }
    {
        self.until
    }

    /// Returns BYMONTH: months.
    pub const fn months(&self) -> &MonthSet
        ensures { result.now ≡ self.now.months }
    {
        &self.months
    }

    /// Returns BYMONTHDAY: days of the month.
    pub const fn month_days(&self) -> &PlaceSet<1>
        ensures { result.now ≡ self.now.month_days }
    {
        &self.month_days
    }

    /// Returns BYYEARDAY: days of the year.
    pub const fn year_days(&self) -> &PlaceSet<7>
        ensures { result.now ≡ self.now.year_days }
    {
        &self.year_days
    }

    /// Returns BYWEEKNO: weeks of the year.
    pub const fn weeks(&self) -> &PlaceSet<1>
        ensures { result.now ≡ self.now.weeks }
    {
        &self.weeks
    }

    /// Returns BYDAY: weekdays, all of them or by their place in the month or year.
    pub const fn weekdays(&self) -> &WeekdayPlaces
        ensures { result.now ≡ self.now.weekdays }
    {
        &self.weekdays
    }

    /// Returns BYSETPOS: places among the days of a period.
    pub const fn positions(&self) -> &PlaceSet<7>
        ensures { result.now ≡ self.now.positions }
    {
        &self.positions
    }

    /// Returns WKST: the first day of a week.
    pub const fn week_start(&self) -> Weekday
        ensures { result ≡ self.now.week_start }
    {
        self.week_start
    }

    /// Returns SKIP: how to handle a month or day that doesn't exist.
    pub const fn skip(&self) -> Skip
        ensures { result ≡ self.now.skip }
    {
        self.skip
    }
}
