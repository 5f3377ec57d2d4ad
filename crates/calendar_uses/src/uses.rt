//! A form, a settings page, a recurrence rule, an age, an undo and a list of events.

ghost use Rattle.std.specs.Prelude.{◌≡◌, ◌↔◌, ◌<◌, ◌<ℤ◌, IsTrue, IfOk, Err};
ghost use Rattle.icu_calendar.specs.CalendarList.{day_number};
ghost use Rattle.icu_calendar.specs.CalendarSystem.{resolve_fields};
ghost use Rattle.icu_calendar.specs.Adding.{IsSum};
ghost use Rattle.icu_calendar.specs.Difference.{IsDifference};
ghost use Rattle.icu_calendar.specs.Dates.{answer_by};
ghost use Rattle.icu_calendar.specs.IsoSystem.{iso_list, iso_date};
ghost use Rattle.icu_calendar.specs.GregorianSystem.{gregorian_system, gregorian_date};
ghost use Rattle.icu_calendar.specs.AnySystem.{any_system, any_date};
ghost use Rattle.calendar_uses.specs.Forms.{form_fields, strictly};
ghost use Rattle.calendar_uses.specs.Recurrence.{later_by};

use icu_calendar::laws::sum_with_difference;
use icu_calendar::{
    AnyCalendar, AsCalendar, Calendar, Date, DateAddError, DateAddOptions, DateDifferenceOptions,
    DateDuration, DateDurationUnit, DateFields, DateFromFieldsError, DateFromFieldsOptions,
    Gregorian, Iso, Month, Overflow,
};

/// Creates a date from what was entered into a form: a year, a month's number and a day.
///
/// # Errors
///
/// - The first invalid field, as [`Date::try_from_fields`] reports it.
pub fn date_of_form<'t>(
    extended_year: i32,
    month: u8,
    day: u8,
    calendar: AnyCalendar<'t>,
) -> Result<Date<AnyCalendar<'t>>, DateFromFieldsError>
    ensures named { let fields = form_fields extended_year month day in
        answer_by (λ d. any_date calendar.entry d.inner) result
        ≡ resolve_fields (any_system calendar.entry) fields strictly }
    ensures calendar { IfOk result (λ d. d.calendar ≡ calendar.entry) }
{
    let fields = DateFields::from_year_month_day(extended_year, Month::new(month), day);
    let reject = DateFromFieldsOptions {
        overflow: Some(Overflow::Reject),
        missing_fields_strategy: None,
    };
    Date::try_from_fields(fields, reject, calendar)
}

/// Converts a date to the calendar that a reader chose on a settings page.
pub fn in_chosen_calendar<'t>(date: &Date<Iso>, calendar: AnyCalendar<'t>) -> Date<AnyCalendar<'t>>
    ensures { let shown = day_number (any_system calendar.entry).list (any_date calendar.entry result.inner) in
        shown ≡ day_number iso_list (iso_date date.now.inner) }
{
    date.to_calendar(calendar)
}

/// Returns the date some months after the first one. A month without the first one's day has none.
///
/// # Errors
///
/// - `DateAddError`, which names the month's last day, if the month doesn't have the first one's day.
pub fn months_later<'t>(
    first: Date<AnyCalendar<'t>>,
    months: u32,
) -> Result<Date<AnyCalendar<'t>>, DateAddError>
    ensures sum { let s = any_system first.entry.calendar in
        let t = any_date first.entry.calendar first.entry.inner in
        let answer = answer_by (λ d. any_date first.entry.calendar d.inner) result in
        IsSum s.list s.year_shift t (later_by months) Overflow.Reject answer }
    ensures lacks_day { let t = any_date first.entry.calendar first.entry.inner in
        (last : _) → result ≡ Err (DateAddError.InvalidDay last) → last < t.day }
    ensures calendar { IfOk result (λ d. d.calendar ≡ first.entry.calendar) }
{
    let later = DateDuration {
        is_negative: false,
        years: 0,
        months,
        weeks: 0,
        days: 0,
    };
    let reject = DateAddOptions {
        overflow: Some(Overflow::Reject),
    };
    first.try_added_with_options(later, reject)
}

/// Returns an age: the years, months and days from one date to another.
pub fn age(birth: &Date<Gregorian>, today: &Date<Gregorian>) -> DateDuration
    ensures { let list = gregorian_system.list in
        let from = gregorian_date birth.now.inner in
        IsDifference list from (gregorian_date today.now.inner) DateDurationUnit.Years result }
{
    let in_years = DateDifferenceOptions {
        largest_unit: Some(DateDurationUnit::Years),
    };
    match birth.try_until_with_options(today, in_years) {
        Ok(between) => between,
        // All Gregorian calendars are compatible.
        Err(_) => unreachable!(),
    }
}

/// Adds the difference from one date to another back to the first, as an undo does. The result is the other date.
pub fn there_and_back(first: Date<Gregorian>, second: &Date<Gregorian>) -> Date<Gregorian>
    ensures { gregorian_date result.inner ≡ gregorian_date second.now.inner }
{
    match sum_with_difference(first, second, DateDifferenceOptions::default()) {
        Ok(sum) => sum,
        // All Gregorian calendars are compatible.
        Err(_) => unreachable!(),
    }
}

/// Returns `true` if one day comes before another, in whatever calendars the two are written.
pub fn is_earlier<A: AsCalendar, B: AsCalendar>(first: &Date<A>, second: &Date<B>) -> bool
where
    A::Calendar: Calendar,
    B::Calendar: Calendar,
    ensures { let c = A.cal_of first.now.calendar in
        let other = B.cal_of second.now.calendar in
        let day = day_number (A.Calendar.system c).list (A.Calendar.date_of c first.now.inner) in
        let other_day = day_number (B.Calendar.system other).list (B.Calendar.date_of other second.now.inner) in
        IsTrue result ↔ day <ℤ other_day }
{
    first.to_rata_die() < second.to_rata_die()
}
