//! Examples of the ISO calendar.

ghost use Rattle.std.specs.Prelude.{◌≡◌, ◌<◌};

use icu_calendar::rules::{RecurrenceRule, RuleCalendar};
use icu_calendar::{
    AsCalendar, Calendar, Date, DateAddError, DateAddOptions, DateDifferenceOptions, DateDuration,
    DateDurationUnit, DateFields, DateFromFieldsOptions, Hebrew, Missing, Month, ParseError,
    RataDie, Recurrence, Rule, SpanError, Steps, Weekday, Window, first_index_counted, laws,
    named_dates, occurrence_counted, recur,
};
use std::alloc::AllocError;
use std::cmp::Ordering;
use std::convert::Infallible;
use std::process::Abort;
use std::sync::ledger::{Blank, Ledger};
use std::test::Fail;

/// The examples of the date of a day.
fn show_date_of_day<A: AsCalendar + Copy>(rt: &impl Abort, Iso: A) -> Result<(), AllocError>
where
    A::Calendar: Calendar,
    requires same { (b : A) → A.is_clone Iso b → A.cal_of b ≡ A.cal_of Iso }
    requires infallible { A.is_infallible Iso }
{
    let date = Date::from_rata_die(RataDie::new(738946), Iso);
    assert!(rt; date.year().extended_year() == 2024);
    assert!(rt; date.month().number() == 3);
    assert!(rt; date.day_of_year().0 == 61);
    assert!(rt; date.weekday() == Weekday::Friday);

    let again = date.clone();
    assert!(rt; again.same_date(&date));
    let again = date.try_clone()?;
    assert!(rt; again.same_date(&date));

    assert!(rt; laws::date_of_its_day(&date).same_date(&date));
    assert!(rt; laws::back_from_another_calendar(&date, Hebrew).same_date(&date));
    assert!(rt; laws::date_of_its_fields(&date).same_date(&date));
    Ok(())
}

/// The examples of the date of fields, and of an earlier one; the date of a text.
fn show_date_of_fields<K: Calendar + AsCalendar<Calendar = K> + Copy + PartialEq>(
    rt: &impl Abort,
    Iso: K,
    date: Date<K>,
    earlier: Date<K>,
) -> Result<(), ParseError> {
    assert!(rt; *date.calendar() == Iso);
    assert!(rt; *date.calendar_wrapper() == Iso);
    assert!(rt; date.as_borrowed().same_date(&date));
    assert!(rt; earlier.date_cmp(&date) == Some(Ordering::Less));
    let again = Date::from_rata_die(RataDie::new(738946), Iso);
    assert!(rt; date.same_date(&again));

    let date = Date::try_from_utf8(b"2024-03-01", Iso)?;
    assert!(rt; date.to_rata_die().to_i64_date() == 738946);
    Ok(())
}

/// The last days of the first two months of a list.
fn show_last_days<C: Calendar + Copy>(rt: &impl Abort, mut items: Recurrence<C>) -> Option<()> {
    assert!(rt; items.next()?.day.to_i64_date() == 737821); // 2021-01-31
    assert!(rt; items.next()?.day.to_i64_date() == 737849); // 2021-02-28
    assert!(rt; items.rest()?.first().to_i64_date() == 737850);
    Some(())
}

/// The examples of lists of occurrences.
fn show_occurrences<K: Calendar + AsCalendar<Calendar = K> + Copy>(
    rt: &impl Abort,
    Iso: K,
) -> Option<()> {
    let rule = Rule::try_new(DateDurationUnit::Months, 1, Missing::Constrain)?;
    let window = Window::try_new(RataDie::new(737821), RataDie::new(737910))?;
    let mut items = Date::from_rata_die(RataDie::new(737821), Iso).recur(rule, window);
    show_last_days(rt, items)?;

    let start = Iso.from_rata_die(RataDie::new(737821));
    let mut items = recur(Iso, start, rule, window);
    show_last_days(rt, items)
}

/// The examples of two bags of fields.
fn show_bags<A: AsCalendar + Copy>(rt: &impl Abort, Iso: A) -> Result<(), SpanError>
where
    A::Calendar: Calendar,
{
    let from = DateFields::from_year_month_day(2024, Month::new(9), 30);
    let to = DateFields::from_year_month_day(2024, Month::new(10), 31);
    let dates = named_dates(from, to, DateFromFieldsOptions::default(), Iso)?;
    assert!(rt; dates.from().month().number() == 9 && dates.to().month().number() == 10);
    assert!(rt; dates.duration(DateDifferenceOptions::default()).days == 31);
    Ok(())
}

/// The examples of a date, and of an earlier one; lists, and bags of fields.
pub(in crate::tests) fn show<K: Calendar + AsCalendar<Calendar = K> + Copy + PartialEq>(
    rt: &impl Abort,
    Iso: K,
    date: Date<K>,
    earlier: Date<K>,
) -> Result<(), Fail>
    requires same { (b : K) → K.is_clone Iso b → K.cal_of b ≡ K.cal_of Iso }
    requires infallible { K.is_infallible Iso }
{
    show_date_of_day(rt, Iso)?;
    show_date_of_fields(rt, Iso, date, earlier)?;
    show_bags(rt, Iso)?;
    assert!(rt; show_occurrences(rt, Iso).is_some());
    Ok(())
}

/// The examples of a date of 1992, of the date of an inner date, and of sums: one month after a January 31.
pub(in crate::tests) fn show_days_and_sums<A: AsCalendar>(
    rt: &impl Abort,
    of_fields: Date<A>,
    of_inner: Date<A>,
    inner: <A::Calendar as Calendar>::DateInner,
    start: Date<A>,
    again: Date<A>,
) -> Result<(), DateAddError>
where
    A::Calendar: Calendar,
{
    let date = of_fields;
    assert!(rt; date.to_rata_die().to_i64_date() == 727443);

    let date = of_inner;
    assert!(rt; *date.inner() == inner);
    assert!(rt; date.to_rata_die().to_i64_date() == 738946); // 2024-03-01

    let mut date = start;
    date.try_add_with_options(DateDuration::for_months(1), DateAddOptions::default())?;
    assert!(rt; date.day_of_month().0 == 29); // of February

    let date = again;
    let month = DateDuration::for_months(1);
    let later = date.try_added_with_options(month, DateAddOptions::default())?;
    assert!(rt; later.day_of_month().0 == 29); // of February
    Ok(())
}

/// The examples of differences in months, and in days.
pub(in crate::tests) fn show_differences<A: AsCalendar + Copy>(
    rt: &impl Abort,
    in_months: (Date<A>, Date<A>),
    in_days: (Date<A>, Date<A>),
)
where
    A::Calendar: Calendar<DateCompatibilityError = Infallible>,
{
    let (first, second) = in_months;
    let months = DateDifferenceOptions {
        largest_unit: Some(DateDurationUnit::Months),
    };
    let Ok(difference) = first.try_until_with_options(&second, months);
    assert!(rt; difference.months == 1 && difference.days == 1);

    let (first, second) = in_days;
    let Ok(sum) = laws::sum_with_difference(first, &second, DateDifferenceOptions::default());
    assert!(rt; sum.same_date(&second));
}

/// The examples of calls whose steps are counted: the days of occurrences by their indices, and a difference.
pub(in crate::tests) fn show_counted<
    K: Calendar<DateCompatibilityError = Infallible> + AsCalendar<Calendar = K> + Copy,
    L: Ledger,
>(rt: &impl Abort, Iso: K, first: Date<K>, second: Date<K>, blank: Blank) -> Option<()>
    requires name { blank.name ≡ L.name }
    requires parts { blank.parts ≡ L.parts }
    requires some { 0 < blank.parts }
{
    let mut steps = Steps::<L>::new(blank);
    let monthly = Rule::try_new(DateDurationUnit::Months, 1, Missing::Constrain)?;
    let start = Iso.from_rata_die(RataDie::new(737821)); // 2021-01-31
    let week = (first, second);
    let second = occurrence_counted(&Iso, &start, monthly, 1, &mut steps)?;
    assert!(rt; second.to_i64_date() == 737849); // 2021-02-28
    let march = RataDie::new(737850);
    assert!(rt; first_index_counted(&Iso, &start, monthly, march, &mut steps) == Some(2));

    let (first, second) = week;
    let Ok(difference) = first.until_counted(&second, DateDifferenceOptions::default(), &mut steps);
    assert!(rt; difference.days == 7);
    Some(())
}

/// The last Fridays of some months, and those that are left.
pub(in crate::tests) fn show_last_fridays<A: AsCalendar>(
    rt: &impl Abort,
    Iso: A,
    rule: RecurrenceRule,
) -> Option<()>
where
    A::Calendar: RuleCalendar + Copy,
{
    let window = Window::try_new(RataDie::new(738886), RataDie::new(738976))?;
    let start = Date::from_rata_die(RataDie::new(738521), Iso); // 2023-01-01
    let mut items = start.rrule(rule, window);
    assert!(rt; items.next()?.day.to_i64_date() == 738911); // 2024-01-26
    let mut items = start.rrule(rule, window);
    assert!(rt; items.next()?.index == 12);
    let mut others = start.resume_rrule(rule, items.rest()?, items.next_index());
    assert!(rt; others.next()?.day.to_i64_date() == 738939); // 2024-02-23
    Some(())
}
