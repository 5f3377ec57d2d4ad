//! Examples of calendars of the sun, but for ISO.

use super::{Created, Styled};
use icu_calendar::{
    AsCalendar, Calendar, Date, DateFields, DateFromFieldsError, DateFromFieldsOptions,
    DateNewError, EraYear, EthiopianEraStyle, Iso, Month, Overflow, RataDie, YearInfo, laws,
};
use std::process::Abort;

/// The day of a date.
pub(in crate::tests) fn show_day<A: AsCalendar>(rt: &impl Abort, date: &Date<A>)
where
    A::Calendar: Calendar,
{
    assert!(rt; date.to_rata_die().to_i64_date() == 738946); // 2024-03-01
}

/// The examples of a date, of one that is constrained to its month, and of Easter.
pub(in crate::tests) fn show_gregorian<A: AsCalendar>(
    rt: &impl Abort,
    Gregorian: A,
    date: Date<A>,
    easter: Date<A>,
) -> Result<(), DateFromFieldsError>
where
    A::Calendar: Calendar,
{
    assert!(rt; date.to_rata_die().to_i64_date() == 738946);
    assert!(rt; date.is_in_leap_year());
    assert!(rt; date.days_in_year() == 366);
    assert!(rt; !laws::rebased_in_a_shared_year(&date, Iso).moved);
    assert!(rt; easter.to_rata_die().to_i64_date() == 738976); // 2024-03-31

    let fields = DateFields::from_year_month_day(2024, Month::new(2), 30);
    let constrain = DateFromFieldsOptions {
        overflow: Some(Overflow::Constrain),
        missing_fields_strategy: None,
    };
    let date = Date::try_from_fields(fields, constrain, Gregorian)?;
    assert!(rt; date.day_of_month().0 == 29);
    Ok(())
}

/// The examples of a year.
fn show_year(rt: &impl Abort, year: YearInfo) -> Option<()> {
    assert!(rt; year.era()?.year == 2567);
    Some(())
}

/// The examples of a date, and of one that was converted from ISO.
pub(in crate::tests) fn show_buddhist<A: AsCalendar>(
    rt: &impl Abort,
    Buddhist: A,
    date: Date<A>,
    iso: Date<Iso>,
)
where
    A::Calendar: Calendar<Year = EraYear>,
{
    show_day(rt, &date);
    assert!(rt; date.year().era_year_or_related_iso() == 2567);
    assert!(rt; date.to_iso().year().extended_year() == 2024);
    let year = date.era_year();
    assert!(rt; year.year == 2567 && year.era.as_str() == "be");
    let year = date.year();
    assert!(rt; show_year(rt, year).is_some());

    let date = Date::new_from_iso(iso, Buddhist);
    assert!(rt; date.era_year().year == 2567);
}

/// The examples of the date of fields, of Easter, and of the date of a day.
pub(in crate::tests) fn show_julian<Julian: AsCalendar + Created>(
    rt: &impl Abort,
    date: Date<Julian>,
    easter: Date<Julian>,
)
where
    Julian::Calendar: Calendar,
{
    assert!(rt; date.to_rata_die().to_i64_date() == 738156); // 2022-01-01
    assert!(rt; easter.to_rata_die().to_i64_date() == 739011); // 2024-05-05
    let date = Date::from_rata_die(RataDie::new(738946), Julian::new());
    assert!(rt; date.day_of_month().0 == 17); // of February
}

/// The examples of the date of fields, and of the date of a day.
pub(in crate::tests) fn show_indian<Indian: AsCalendar + Created>(
    rt: &impl Abort,
    date: Date<Indian>,
)
where
    Indian::Calendar: Calendar,
{
    show_day(rt, &date);
    let date = Date::from_rata_die(RataDie::new(738946), Indian::new());
    assert!(rt; date.day_of_month().0 == 11);
}

/// The examples of corrected years, and of a date of fields.
pub(in crate::tests) fn show_persian<A: AsCalendar + Copy>(
    rt: &impl Abort,
    persian: A,
    date: Date<A>,
) -> Result<(), DateNewError>
where
    A::Calendar: Calendar<Year = EraYear>,
{
    show_day(rt, &date);

    let new_year = Date::try_new(1404.into(), Month::new(1), 1, persian)?;
    assert!(rt; new_year.to_rata_die().to_i64_date() == 739331); // 2025-03-21

    let date = Date::from_rata_die(RataDie::new(739331), persian);
    assert!(rt; date.day_of_year().0 == 1); // 2025-03-21

    let date = Date::from_rata_die(RataDie::new(738946), persian);
    assert!(rt; date.era_year().year == 1402);
    Ok(())
}

/// The examples of the years of Incarnation and of the World: the date of fields, and dates of days.
pub(in crate::tests) fn show_ethiopian<Ethiopian: AsCalendar + Styled>(
    rt: &impl Abort,
    date: Date<Ethiopian>,
)
where
    Ethiopian::Calendar: Calendar<Year = EraYear>,
{
    show_day(rt, &date);
    let date = Date::from_rata_die(RataDie::new(738946), Ethiopian::new());
    assert!(rt; date.era_year().year == 2016);

    let style = EthiopianEraStyle::AmeteAlem;
    let date = Date::from_rata_die(RataDie::new(738946), Ethiopian::new_with_era_style(style));
    assert!(rt; date.era_year().year == 7516);
}

/// The examples of a date of fields, of the date of a day, and of the eras up to Reiwa.
pub(in crate::tests) fn show_japanese<Japanese: AsCalendar + Created>(
    rt: &impl Abort,
    japanese: Japanese,
    date: Date<Japanese>,
)
where
    Japanese::Calendar: Calendar<Year = EraYear>,
{
    assert!(rt; date.to_rata_die().to_i64_date() == 726103); // 1989-01-01
    assert!(rt; date.era_year().era.as_str() == "showa");

    let date = Date::from_rata_die(RataDie::new(738946), Japanese::new());
    assert!(rt; date.era_year().era.as_str() == "reiwa" && date.era_year().year == 6);

    let date = Date::from_rata_die(RataDie::new(738946), japanese);
    assert!(rt; date.era_year().year == 6);
    assert!(rt; date.era_year().year == 6); // of Reiwa
}
