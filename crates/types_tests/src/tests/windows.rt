//! Windows of days.

use crate::tests::expected::{assert_at, assert_holds};
use cal_days::RataDie;
use cal_types::Window;
use std::process::Abort;

/// That the days from the first to the last are a window with these ends, or are none.
fn assert_window(rt: &impl Abort, first: RataDie, last: RataDie, is_there: bool) {
    let case = (first.to_i64_date(), last.to_i64_date());
    let window = Window::try_new(first, last);
    assert_at(rt, case, window.is_some(), is_there);
    if let Some(window) = window {
        assert_at(rt, case, window.ends(), (first, last));
        assert_holds(rt, case, window.first() == first);
        assert_holds(rt, case, window.last() == last);
    }
}

#[test]
fn a_window_has_two_valid_days_in_order(rt: HostRuntime) {
    let (low, high) = (RataDie::new(-365242499), RataDie::new(365242134));
    let day = RataDie::new(730120);
    assert_window(&rt, low, high, true);
    assert_window(&rt, low, low, true);
    assert_window(&rt, high, high, true);
    assert_window(&rt, day, day, true);
    assert_window(&rt, day, RataDie::new(730121), true);
    assert_window(&rt, RataDie::new(730121), day, false);
    assert_window(&rt, high, low, false);
    assert_window(&rt, RataDie::new(-365242500), day, false);
    assert_window(&rt, day, RataDie::new(365242135), false);
    assert_window(
        &rt,
        RataDie::new(-365242501),
        RataDie::new(-365242500),
        false,
    );
    assert_window(&rt, RataDie::new(365242135), RataDie::new(365242136), false);
}

#[test]
fn windows_are_equal_by_both_days(rt: HostRuntime) {
    let (first, last, later) = (RataDie::new(1), RataDie::new(2), RataDie::new(3));
    let window = Window::try_new(first, last);
    let same = window == Window::try_new(first, last);
    assert_holds(&rt, "the same", same);
    let with_another_last = window != Window::try_new(first, later);
    assert_holds(&rt, "another last", with_another_last);
    let with_another_first = window != Window::try_new(last, last);
    assert_holds(&rt, "another first", with_another_first);
}
