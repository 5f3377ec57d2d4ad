//! Examples of the Hebrew calendar.

use super::Created;
use icu_calendar::rules::{RecurrenceRule, RuleCalendar};
use icu_calendar::{
    AsCalendar, Calendar, Date, DateNewError, DateRecord, EraYear, Iso, IxdtfRecord, LeapStatus,
    Month, MonthInfo, ParseError, RataDie, Window,
};
use std::alloc::AllocGlobal;
use std::process::Abort;
use std::test::Fail;

/// The examples of a month.
fn show_month(rt: &impl Abort, month: MonthInfo) {
    assert!(rt; month.to_input() == Month::leap(5)); // Adar I
    assert!(rt; month.number() == 5); // in the place 6
    assert!(rt; month.leap_status() == LeapStatus::Leap);
    assert!(rt; month.is_leap()); // Adar I
}

/// The examples of a date.
fn show_date<A: AsCalendar>(rt: &impl Abort, date: &Date<A>)
where
    A::Calendar: Calendar<Year = EraYear>,
{
    assert!(rt; date.to_rata_die().to_i64_date() == 738946); // 2024-03-01
    assert!(rt; date.era_year().year == 5784);
    assert!(rt; date.months_in_year() == 13);
    assert!(rt; date.days_in_month() == 30);
    assert!(rt; date.day_of_month().0 == 21);
    assert!(rt; date.month().to_input() == Month::leap(5)); // Adar I
    let month = date.month();
    show_month(rt, month);
}

/// The dates of a year, a month and a day, and of a day number. The same month of the year before doesn't exist.
fn show_new_dates<Hebrew: AsCalendar + Copy + Created>(
    rt: &impl Abort,
    Hebrew: Hebrew,
) -> Result<(), DateNewError>
where
    Hebrew::Calendar: Calendar<Year = EraYear>,
{
    let date = Date::try_new(5784.into(), Month::leap(5), 21, Hebrew)?;
    assert!(rt; Date::try_new(5783.into(), Month::leap(5), 21, Hebrew).is_err());
    show_date(rt, &date);
    let date = Date::from_rata_die(RataDie::new(738946), Hebrew);
    show_date(rt, &date);
    let date = Date::from_rata_die(RataDie::new(738946), Hebrew::new());
    show_date(rt, &date);
    Ok(())
}

/// The examples of a text and of a record.
fn show_text_and_record<A: AsCalendar + Copy>(rt: &impl Abort, Hebrew: A) -> Result<(), ParseError>
where
    A::Calendar: Calendar<Year = EraYear>,
{
    let date = Date::try_from_str("2024-03-01[u-ca=hebrew]", Hebrew)?;
    show_date(rt, &date);

    let date = Some(DateRecord {
        year: 2024,
        month: 3,
        day: 1,
    });
    let calendar = None;
    let record = IxdtfRecord { date, calendar };
    let date = Date::try_from_ixdtf_record(&record, Hebrew)?;
    assert!(rt; date.era_year().year == 5784);
    match Date::try_from_ixdtf_record_with_rd(&record, Hebrew) {
        Ok((date, rd)) => {
            assert!(rt; rd.to_i64_date() == 738946);
            assert!(rt; date.era_year().year == 5784);
        }
        Err(_) => assert!(rt; false),
    }
    Ok(())
}

/// The examples of a date that was made by the constructor, and of other ways to the same date.
pub(in crate::tests) fn show<Hebrew: AsCalendar + Copy + Created>(
    rt: &impl Abort,
    Hebrew: Hebrew,
    date: Date<Hebrew>,
    iso: Date<Iso>,
) -> Result<(), Fail>
where
    Hebrew::Calendar: Calendar<Year = EraYear>,
{
    show_date(rt, &date);
    let date = iso.to_calendar(Hebrew);
    show_date(rt, &date);
    show_new_dates(rt, Hebrew)?;
    show_text_and_record(rt, Hebrew)?;
    Ok(())
}

/// The examples of a counted pointer.
pub(in crate::tests) fn show_counted<A: AsCalendar + Copy>(
    rt: &(impl Abort + AllocGlobal),
    Hebrew: A,
)
where
    A::Calendar: Calendar,
{
    let date = Date::from_rata_die(RataDie::new(738946), Hebrew);
    match date.into_ref_counted(rt.alloc()) {
        Ok(counted) => assert!(rt; counted.day_of_month().0 == 21),
        Err(_) => assert!(rt; false), // no memory
    }
}

/// The examples of a rule of a leap month.
pub(in crate::tests) fn show_leap_month_forward<A: AsCalendar>(
    rt: &impl Abort,
    Hebrew: A,
    rule: RecurrenceRule,
) -> Option<()>
where
    A::Calendar: RuleCalendar + Copy,
{
    let window = Window::try_new(RataDie::new(738521), RataDie::new(739616))?;
    let start = Date::from_rata_die(RataDie::new(738197), Hebrew); // 10 Adar I 5782
    let mut items = start.rrule(rule, window);
    assert!(rt; items.next()?.day.to_i64_date() == 738582); // 10 Adar 5783
    assert!(rt; items.next()?.day.to_i64_date() == 738935); // 10 Adar I 5784
    Some(())
}
