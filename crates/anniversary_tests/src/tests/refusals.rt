//! Invalid months and days.

use crate::tests::expected::{Asked, listed};
use cal_anniversary::AnniversaryError;
use cal_base::{Calendar, Iso};
use cal_days::RataDie;
use cal_hebrew::Hebrew;
use cal_types::{Leaping, Month, Window};

/// Returns the error for a month and a day, if there is one.
fn fault_of<C: Calendar>(calendar: C, month: Month, day: u8) -> Option<AnniversaryError> {
    let asked = Asked {
        month,
        day,
        leaping: Leaping::Exact,
        first: 1,
        last: 2,
    };
    match listed(calendar, asked) {
        Ok(_) => None,
        Err(fault) => Some(fault),
    }
}

#[test]
fn a_month_of_no_year_is_refused_before_its_day(rt: HostRuntime) {
    let refused = Some(AnniversaryError::MonthNotInCalendar);
    assert!(rt; fault_of(Iso::new(), Month::new(13), 1) == refused);
    assert!(rt; fault_of(Iso::new(), Month::new(13), 0) == refused);
    assert!(rt; fault_of(Iso::new(), Month::leap(5), 1) == refused);
    assert!(rt; fault_of(Hebrew::new(), Month::leap(6), 1) == refused);
    assert!(rt; fault_of(Hebrew::new(), Month::leap(5), 1) == None);
}

#[test]
fn a_day_of_no_month_is_refused(rt: HostRuntime) {
    let refused = Some(AnniversaryError::InvalidDay);
    assert!(rt; fault_of(Iso::new(), Month::new(2), 0) == refused);
    assert!(rt; fault_of(Iso::new(), Month::new(2), 32) == refused);
    assert!(rt; fault_of(Iso::new(), Month::new(2), 31) == None);
}

#[test]
fn a_window_has_a_day_and_valid_ends(rt: HostRuntime) {
    assert!(rt; Window::try_new(RataDie::new(2), RataDie::new(1)) == None);
    assert!(rt; Window::try_new(RataDie::new(-365242500), RataDie::new(1)) == None);
    assert!(rt; Window::try_new(RataDie::new(1), RataDie::new(365242135)) == None);
}
