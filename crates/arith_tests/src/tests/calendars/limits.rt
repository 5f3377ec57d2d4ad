//! The limits of what is added: at each of them the sum is looked for, and so a day that its month lacks is refused
//! first; one beyond, nothing is looked for.

use crate::tests::calendars::{assert_sum, duration};
use cal_types::DateAddError::{InvalidDay, Overflow as OutOfRange};
use cal_types::DateDuration;
use cal_types::Overflow::{Constrain, Reject};
use std::process::Abort;

/// That a day so far away is looked for, and lies in a month that lacks the day; and that no day is kept, where the
/// month's last one takes its place.
fn assert_looked_for(rt: &impl Abort, rd: i64, added: DateDuration, max: u8) {
    assert_sum(rt, rd, added, Reject, Err(InvalidDay { max }));
    assert_sum(rt, rd, added, Constrain, Err(OutOfRange));
}

/// That nothing so far away is looked for.
fn assert_refused(rt: &impl Abort, rd: i64, added: DateDuration) {
    assert_sum(rt, rd, added, Reject, Err(OutOfRange));
    assert_sum(rt, rd, added, Constrain, Err(OutOfRange));
}

#[test]
fn the_year_of_a_sum_is_one_from_minus_1040000_to_1040000(rt: HostRuntime) {
    // From 999999-01-31 to February of a leap year, and from -999999-01-31 to November of the year before.
    assert_looked_for(&rt, 365241800, duration(false, 40001, 1, 0, 0), 29);
    assert_refused(&rt, 365241800, duration(false, 40002, 1, 0, 0));
    assert_looked_for(&rt, -365242469, duration(true, 40001, 2, 0, 0), 30);
    assert_refused(&rt, -365242469, duration(true, 40002, 2, 0, 0));
    assert_refused(&rt, -365242469, duration(false, 2080000, 1, 0, 0));
    assert_refused(&rt, -365242469, duration(false, 2080001, 1, 0, 0));
}

#[test]
fn at_most_27040000_months_are_added(rt: HostRuntime) {
    // From 2000-12-31 to April, from 2000-01-31 to June and back to September, and from 2000-07-31 back to February.
    assert_looked_for(&rt, 730485, duration(false, 0, 27040000, 0, 0), 30);
    assert_refused(&rt, 730150, duration(false, 0, 27040001, 0, 0));
    assert_looked_for(&rt, 730150, duration(true, 0, 27040000, 0, 0), 30);
    assert_refused(&rt, 730332, duration(true, 0, 27040001, 0, 0));
}

#[test]
fn at_most_838240000_days_are_added_with_seven_for_a_week(rt: HostRuntime) {
    // From 2001-01-31 to February.
    assert_looked_for(&rt, 730516, duration(false, 0, 1, 0, 838240000), 28);
    assert_refused(&rt, 730516, duration(false, 0, 1, 0, 838240001));
    assert_looked_for(&rt, 730516, duration(false, 0, 1, 119748571, 3), 28);
    assert_refused(&rt, 730516, duration(false, 0, 1, 119748571, 4));
    assert_refused(&rt, 730516, duration(false, 0, 1, 119748572, 0));
}

#[test]
fn sums_are_valid_days(rt: HostRuntime) {
    assert_sum(
        &rt,
        365242133,
        duration(false, 0, 0, 0, 1),
        Reject,
        Ok(365242134),
    );
    assert_refused(&rt, 365242134, duration(false, 0, 0, 0, 1));
    assert_sum(
        &rt,
        -365242498,
        duration(true, 0, 0, 0, 1),
        Reject,
        Ok(-365242499),
    );
    assert_refused(&rt, -365242499, duration(true, 0, 0, 0, 1));
}
