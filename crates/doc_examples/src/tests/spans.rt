//! The examples of the docs: differences of two bags of fields.

use icu_calendar::{
    AnyCalendar, DateDifferenceOptions, DateFields, DateFromFieldsOptions, Hebrew, Iso, Month, span,
};
use std::test::Fail;

#[test]
fn bags_of_fields(rt: HostRuntime) -> Result<(), Fail> {
    let from = DateFields::from_year_month_day(2024, Month::new(9), 30);
    let to = DateFields::from_year_month_day(2024, Month::new(10), 31);
    let in_days = DateDifferenceOptions::default();
    let iso = AnyCalendar::Iso(Iso);
    let hebrew = AnyCalendar::Hebrew(Hebrew);
    let reject = DateFromFieldsOptions::default();
    let span = span(from, to, reject, in_days, iso, hebrew)?;
    assert!(rt; span.duration.days == 31);
    Ok(())
}
