//! The assertions of the tests.

use cal_anniversary::{Anniversaries, AnniversaryError, anniversaries};
use cal_base::Calendar;
use cal_days::RataDie;
use cal_types::{Leaping, Month, Window};
use std::process::Abort;

/// A month and a day, and the first and last day of a window.
#[derive(Clone, Copy, Debug)]
pub(super) struct Asked {
    pub(super) month: Month,
    pub(super) day: u8,
    pub(super) leaping: Leaping,
    pub(super) first: i64,
    pub(super) last: i64,
}

/// Returns the anniversaries if the window, the month and the day are valid.
pub(super) fn listed<C: Calendar>(
    calendar: C,
    asked: Asked,
) -> Result<Anniversaries<C>, AnniversaryError> {
    let held = -400000000 <= asked.first
        && asked.first <= 400000000
        && -400000000 <= asked.last
        && asked.last <= 400000000;
    if !held {
        return Err(AnniversaryError::InvalidDay);
    }
    match Window::try_new(RataDie::new(asked.first), RataDie::new(asked.last)) {
        Some(window) => anniversaries(calendar, asked.month, asked.day, asked.leaping, window),
        None => Err(AnniversaryError::InvalidDay),
    }
}

/// Asserts that these days are listed, and that the rest after each of them starts on the next day.
pub(super) fn assert_days<C: Calendar>(rt: &impl Abort, calendar: C, asked: Asked, days: &[i64]) {
    match listed(calendar, asked) {
        Ok(mut list) => {
            assert_eq!(rt; ends(list.rest()), Some((asked.first, asked.last)));
            for day in days {
                assert_eq!(rt; number(list.next()), Some(*day));
                let left = if *day < asked.last {
                    Some((*day + 1, asked.last))
                } else {
                    None
                };
                assert_eq!(rt; ends(list.rest()), left, "after {day}");
            }
            assert_eq!(rt; number(list.next()), None);
            assert_eq!(rt; ends(list.rest()), None);
            assert_eq!(rt; number(list.next()), None);
        }
        Err(fault) => assert!(rt; false, "{fault:?}"),
    }
}

/// Returns the first and the last day of a window.
fn ends(window: Option<Window>) -> Option<(i64, i64)> {
    match window {
        Some(window) => Some((window.first().to_i64_date(), window.last().to_i64_date())),
        None => None,
    }
}

/// Returns the number of a day.
fn number(day: Option<RataDie>) -> Option<i64> {
    match day {
        Some(day) => Some(day.to_i64_date()),
        None => None,
    }
}
