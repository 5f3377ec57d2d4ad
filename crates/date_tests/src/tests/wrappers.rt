//! Dates whose calendars are led to in several ways.

use crate::tests::expected::assert_holds;
use icu_calendar::laws::{back_from_another_calendar, date_of_its_day, date_of_its_fields};
use icu_calendar::{
    AsCalendar, Calendar, ChineseTraditional, CyclicYear, Date, EastAsianRow, EastAsianTable,
    EastAsianTraditionalYear, EraYear, Iso, Julian, Month, RataDie, Ref, Side,
};
use std::cmp::Ordering;
use std::process::Abort;
use std::rc::Rc;
use test_dates::{IN_DAYS, has_parts_in, number_in};

/// That two dates are of one day, and of that day number.
fn assert_same<A: AsCalendar, B: AsCalendar<Calendar = A::Calendar>>(
    rt: &impl Abort,
    date: &Date<A>,
    other: &Date<B>,
    number: i64,
)
where
    A::Calendar: Calendar,
{
    assert_holds(rt, number, number_in(other) == number);
    assert_holds(rt, number, date.same_date(other));
    assert_holds(rt, number, date.date_cmp(other) == Some(Ordering::Equal));
}

/// That a date is the same one where its calendar is counted, and where it is cloned or borrowed from there.
fn assert_counted<A: AsCalendar>(
    rt: &impl Abort,
    date: &Date<A>,
    counted: &Date<Rc<A>>,
    number: i64,
)
where
    A::Calendar: Calendar,
{
    assert_same(rt, date, counted, number);
    let again = counted.try_clone().expect(rt, "pointers are cloned");
    assert_same(rt, counted, &again, number);
    assert_same(rt, counted, &again.as_borrowed(), number);
    let shown = date.to_calendar(Ref(counted.calendar_wrapper()));
    assert_same(rt, date, &shown, number);
}

/// That there was memory: a date that was handed back is of this day.
fn assert_memory<A: AsCalendar>(rt: &impl Abort, back: &Date<A>, number: i64)
where
    A::Calendar: Calendar,
{
    assert!(rt; number_in(back) == number);
    assert!(rt; false, "no memory");
}

#[test]
fn a_date_is_counted_copied_and_borrowed(rt: HostRuntime) {
    let date = Date::from_rata_die(RataDie::new(727443), Iso);
    match date.into_ref_counted(rt.alloc()) {
        Ok(counted) => assert_counted(&rt, &date, &counted, 727443),
        Err(back) => assert_memory(&rt, &back, 727443),
    }
}

/// The day number of a date that is given away.
fn number_of_given<'c, C: AsCalendar>(date: Date<Ref<'c, C>>) -> i64
where
    C::Calendar: Calendar,
{
    number_in(&date)
}

/// That two dates that borrow their calendar are equal and of this day, also where they are given away.
fn assert_given<C: AsCalendar>(
    rt: &impl Abort,
    first: Date<Ref<'_, C>>,
    second: Date<Ref<'_, C>>,
    number: i64,
)
where
    C::Calendar: Calendar,
{
    assert_holds(rt, "equal", first == second);
    assert_same(rt, &first, &second, number);
    assert_holds(rt, "first", number_of_given(first) == number);
    assert_holds(rt, "second", number_of_given(second) == number);
}

/// A pointer that counts isn't copied; a date that borrows one is.
#[test]
fn a_date_that_borrows_a_pointer_is_given_twice(rt: HostRuntime) {
    let date = Date::from_rata_die(RataDie::new(727443), Iso);
    match date.into_ref_counted(rt.alloc()) {
        Ok(counted) => {
            let borrowed = counted.as_borrowed();
            assert_given(&rt, borrowed, borrowed, 727443);
        }
        Err(back) => assert_memory(&rt, &back, 727443),
    }
}

/// That a date is January 1, 2022 of the ISO calendar, and says so.
fn assert_new_year<A: AsCalendar>(rt: &impl Abort, iso: &Date<A>)
where
    A::Calendar: Calendar<Year = EraYear>,
{
    assert_holds(rt, "the parts", has_parts_in(iso, 738156, 2022, 1, 1));
    assert_holds(rt, "the year", iso.era_year().year == 2022);
}

/// That a date, which is January 1, 2022 of the ISO calendar, is the same one from its parts and from ISO's date.
fn assert_taken_apart<A: AsCalendar + Copy>(rt: &impl Abort, date: Date<A>)
where
    A::Calendar: Calendar<Year = EraYear>,
{
    let calendar = *date.calendar_wrapper();
    let raw = Date::from_raw(*date.inner(), calendar);
    assert_holds(rt, "from its parts", raw == date);
    let iso = raw.to_iso();
    assert_new_year(rt, &iso);
    assert_holds(
        rt,
        "from ISO's date",
        Date::new_from_iso(iso, calendar) == date,
    );
    assert_holds(rt, "the era", date.era_year().era.as_str() == "ce");
}

#[test]
fn dates_are_taken_apart_and_shown_in_iso(rt: HostRuntime) {
    assert_taken_apart(&rt, Date::from_rata_die(RataDie::new(738156), Julian));
}

/// Whether two dates have no difference.
fn lacks_difference<A: AsCalendar, B: AsCalendar<Calendar = A::Calendar>>(
    date: &Date<A>,
    other: &Date<B>,
) -> bool
where
    A::Calendar: Calendar,
{
    date.try_until_with_options(other, IN_DAYS).is_err()
}

/// That two dates can't be compared.
fn assert_apart<A: AsCalendar, B: AsCalendar<Calendar = A::Calendar>>(
    rt: &impl Abort,
    date: &Date<A>,
    other: &Date<B>,
)
where
    A::Calendar: Calendar,
{
    assert_holds(rt, "other dates", !date.same_date(other));
    assert_holds(rt, "no order", date.date_cmp(other).is_none());
    assert_holds(rt, "no difference", lacks_difference(date, other));
}

/// The row of 1912 with a long first month, where the computed year has a short one.
fn row_of_1912(rt: &impl Abort) -> EastAsianRow {
    let starts = [
        RataDie::new(698026),
        RataDie::new(698056),
        RataDie::new(698085),
        RataDie::new(698115),
        RataDie::new(698144),
        RataDie::new(698174),
        RataDie::new(698203),
        RataDie::new(698233),
        RataDie::new(698262),
        RataDie::new(698292),
        RataDie::new(698321),
        RataDie::new(698351),
        RataDie::new(698380),
        RataDie::new(698380),
    ];
    let year = EastAsianTraditionalYear::try_new(1912, starts, None);
    year.expect(rt, "the year is there").row()
}

/// The year of a day of 1900 by the first calendar, whose date can't be compared with that of the second one.
fn year_apart<A: AsCalendar>(rt: &impl Abort, kept: A, computed: &A) -> CyclicYear
where
    A::Calendar: Calendar<Year = CyclicYear>,
{
    let date = Date::from_rata_die(RataDie::new(693862), kept);
    let other = Date::from_rata_die(RataDie::new(693862), Ref(computed));
    assert_same(rt, &date, &date.as_borrowed(), 693862);
    assert_apart(rt, &date, &other);
    date.cyclic_year()
}

#[test]
fn calendars_with_other_years_are_not_compared(rt: HostRuntime) {
    let rows = [row_of_1912(&rt)];
    let table = EastAsianTable::try_new(Side::China, &rows);
    let kept = ChineseTraditional::new(table.expect(&rt, "the table is accepted"));
    let computed = ChineseTraditional::new(EastAsianTable::none(Side::China));
    let year = year_apart(&rt, kept, &computed);
    assert!(rt; year.year == 37);
    assert!(rt; year.related_iso == 1900);
}

/// That a date is the same one by its day, by another calendar and by its fields.
fn assert_back<A: AsCalendar>(rt: &impl Abort, date: &Date<A>, number: i64)
where
    A::Calendar: Calendar,
{
    assert_same(rt, date, &date_of_its_day(date), number);
    assert_same(rt, date, &back_from_another_calendar(date, Julian), number);
    assert_same(rt, date, &date_of_its_fields(date), number);
}

#[test]
fn dates_come_back_by_each_law(rt: HostRuntime) {
    match Date::try_new_hebrew_v2(5782, Month::leap(5), 9) {
        Ok(adar) => assert_back(&rt, &adar, 738196),
        Err(e) => assert!(rt; false, "{e}"),
    }
}
