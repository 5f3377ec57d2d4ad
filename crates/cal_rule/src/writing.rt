//! Writes rules as texts.

use crate::month_set::MonthSet;
use crate::place_set::{Place, PlaceSet};
use crate::rule::RecurrenceRule;
use crate::rule_part::RulePart;
use crate::skip::Skip;
use crate::weekday_places::{WeekdayPlace, WeekdayPlaces};
use crate::weekdays::{WEEKDAYS, weekday_name};
use cal_base::{Calendar, Iso};
use cal_days::RataDie;
use cal_days::ranges::is_valid_day;
use cal_types::{Month, Weekday};
use std::fmt;

/// Writes a part's name after a semicolon, and `=`.
fn begin<W: fmt::Write>(f: &mut fmt::Formatter<W>, part: RulePart) -> fmt::Result {
    f.write_str(";")?;
    f.write_str(part.name())?;
    f.write_str("=")
}

/// Writes what stands before a value of a list: a comma, or the part's name before the first value.
fn separate<W: fmt::Write>(
    f: &mut fmt::Formatter<W>,
    part: RulePart,
    is_first: bool,
) -> fmt::Result {
    if is_first {
        begin(f, part)
    } else {
        f.write_str(",")
    }
}

/// Writes a number as a value of a list.
fn write_number<W: fmt::Write>(
    f: &mut fmt::Formatter<W>,
    part: RulePart,
    is_first: bool,
    number: u16,
) -> fmt::Result {
    separate(f, part, is_first)?;
    write!(f, "{number}")
}

/// Writes a number that is counted from the back as a value of a list.
fn write_back<W: fmt::Write>(
    f: &mut fmt::Formatter<W>,
    part: RulePart,
    is_first: bool,
    number: u16,
) -> fmt::Result {
    separate(f, part, is_first)?;
    write!(f, "-{number}")
}

/// Writes a set of places, if it isn't empty.
fn write_places<const WORDS: usize, W: fmt::Write>(
    f: &mut fmt::Formatter<W>,
    part: RulePart,
    places: &PlaceSet<WORDS>,
) -> fmt::Result {
    let mut is_first = true;
    for number in 1..448 {
        if places.contains(Place::FromFront(number)) {
            write_number(f, part, is_first, number)?;
            is_first = false;
        }
        if places.contains(Place::FromBack(number)) {
            write_back(f, part, is_first, number)?;
            is_first = false;
        }
    }
    Ok(())
}

/// Writes a set of months, if it isn't empty.
fn write_months<W: fmt::Write>(f: &mut fmt::Formatter<W>, months: &MonthSet) -> fmt::Result {
    let mut is_first = true;
    for number in 1..64u8 {
        if months.contains(Month::new(number)) {
            write_number(f, RulePart::ByMonth, is_first, u16::from(number))?;
            is_first = false;
        }
        if months.contains(Month::leap(number)) {
            write_number(f, RulePart::ByMonth, is_first, u16::from(number))?;
            f.write_str("L")?;
            is_first = false;
        }
    }
    Ok(())
}

/// Writes a weekday of BYDAY.
fn write_weekday<W: fmt::Write>(
    f: &mut fmt::Formatter<W>,
    is_first: bool,
    weekday: WeekdayPlace,
) -> fmt::Result {
    match weekday.ordinal {
        None => separate(f, RulePart::ByDay, is_first)?,
        Some(Place::FromFront(number)) => write_number(f, RulePart::ByDay, is_first, number)?,
        Some(Place::FromBack(number)) => write_back(f, RulePart::ByDay, is_first, number)?,
    }
    f.write_str(weekday_name(weekday.day))
}

/// Writes a weekday of BYDAY if a set has it. Returns whether none has been written yet.
fn write_weekday_of<W: fmt::Write>(
    f: &mut fmt::Formatter<W>,
    is_first: bool,
    weekdays: &WeekdayPlaces,
    weekday: WeekdayPlace,
) -> Result<bool, fmt::Error> {
    if !weekdays.contains(weekday) {
        return Ok(is_first);
    }
    write_weekday(f, is_first, weekday)?;
    Ok(false)
}

/// Writes the weekdays of a set that are one weekday. Returns whether none has been written yet.
fn write_one_weekday<W: fmt::Write>(
    f: &mut fmt::Formatter<W>,
    first: bool,
    weekdays: &WeekdayPlaces,
    day: Weekday,
) -> Result<bool, fmt::Error> {
    let every = WeekdayPlace { day, ordinal: None };
    let mut is_first = write_weekday_of(f, first, weekdays, every)?;
    for number in 1..64u16 {
        let ordinal = Some(Place::FromFront(number));
        is_first = write_weekday_of(f, is_first, weekdays, WeekdayPlace { day, ordinal })?;
        let ordinal = Some(Place::FromBack(number));
        is_first = write_weekday_of(f, is_first, weekdays, WeekdayPlace { day, ordinal })?;
    }
    Ok(is_first)
}

/// Writes a set of weekdays, if it isn't empty.
fn write_weekdays<W: fmt::Write>(
    f: &mut fmt::Formatter<W>,
    weekdays: &WeekdayPlaces,
) -> fmt::Result {
    let mut is_first = true;
    for day in WEEKDAYS.iter().copied() {
        is_first = write_one_weekday(f, is_first, weekdays, day)?;
    }
    Ok(())
}

/// Returns the date of a day in the Gregorian calendar as one number, such as 20240229. `None` if the day isn't valid.
fn date_number(day: RataDie) -> Option<i32> {
    if !is_valid_day(day.to_i64_date()) {
        return None;
    }
    let date = Iso.from_rata_die(day);
    let month = i32::from(Iso.month(&date).ordinal);
    let day = i32::from(Iso.day_of_month(&date).0);
    Iso.extended_year(&date)
        .checked_mul(10000)?
        .checked_add(month * 100 + day)
}

impl RecurrenceRule {
    /// Writes FREQ, and INTERVAL unless it is 1.
    fn write_periods<W: fmt::Write>(&self, f: &mut fmt::Formatter<W>) -> fmt::Result {
        f.write_str("FREQ=")?;
        f.write_str(self.frequency.name())?;
        if self.interval == 1 {
            return Ok(());
        }
        begin(f, RulePart::Interval)?;
        write!(f, "{}", self.interval)
    }

    /// Writes COUNT or UNTIL, if there is one.
    fn write_end<W: fmt::Write>(&self, f: &mut fmt::Formatter<W>) -> fmt::Result {
        if let Some(count) = self.count {
            begin(f, RulePart::Count)?;
            return write!(f, "{count}");
        }
        let Some(date) = self.until.and_then(date_number) else {
            return Ok(());
        };
        begin(f, RulePart::Until)?;
        write!(f, "{date:08}")
    }

    /// Writes the sets of months, weeks and days.
    fn write_sets<W: fmt::Write>(&self, f: &mut fmt::Formatter<W>) -> fmt::Result {
        write_months(f, &self.months)?;
        write_places(f, RulePart::ByWeekNo, &self.weeks)?;
        write_places(f, RulePart::ByYearDay, &self.year_days)?;
        write_places(f, RulePart::ByMonthDay, &self.month_days)?;
        write_weekdays(f, &self.weekdays)
    }

    /// Writes WKST unless it is MO, and SKIP unless it is OMIT.
    fn write_ways<W: fmt::Write>(&self, f: &mut fmt::Formatter<W>) -> fmt::Result {
        if self.week_start != Weekday::Monday {
            begin(f, RulePart::Wkst)?;
            f.write_str(weekday_name(self.week_start))?;
        }
        if self.skip == Skip::Omit {
            return Ok(());
        }
        begin(f, RulePart::Skip)?;
        f.write_str(self.skip.name())
    }
}

/// Writes the rule as a text that [`RecurrenceRule::try_from_str`] reads as the same rule. Values stand in their order,
/// and defaults are left out.
impl fmt::Display for RecurrenceRule {
    fn fmt<W: fmt::Write>(&self, f: &mut fmt::Formatter<W>) -> fmt::Result {
        self.write_periods(f)?;
        self.write_end(f)?;
        self.write_sets(f)?;
        write_places(f, RulePart::BySetPos, &self.positions)?;
        self.write_ways(f)
    }
}
