//! The bytes that dates are packed into: those of both ends of the valid days, and of other days.

use crate::tests::expected::{assert_at, assert_packable};
use cal_arith::{PackWithMD, Years};
use cal_base::NumberedYear;
use cal_coptic::{Coptic, Ethiopian};
use cal_julian::{Indian, Julian, Persian, PersianCorrections};
use std::process::Abort;

/// That a month and a day of a year are packed into these bytes with it, and that they and the year are read from them.
fn assert_packed(rt: &impl Abort, year: NumberedYear, (month, day): (u8, u8), bytes: [u8; 4]) {
    assert_packable(rt, year.number, month, day);
    let packed = year.pack(month, day);
    assert_at(rt, year, packed, bytes);
    assert_at(rt, year, NumberedYear::unpack_year(packed), year);
    let read = (
        NumberedYear::unpack_month(packed),
        NumberedYear::unpack_day(packed),
    );
    assert_at(rt, year, read, (month, day));
}

#[test]
fn iso_dates_have_their_bytes(rt: HostRuntime) {
    for &(number, month_and_day, bytes) in &[
        (-999999, (1, 1), [33, 130, 123, 225]),
        (-1, (12, 31), [159, 255, 255, 255]),
        (0, (1, 1), [33, 0, 0, 0]),
        (2024, (3, 1), [97, 208, 15, 0]),
        (999999, (12, 31), [159, 127, 132, 30]),
    ] {
        assert_packed(&rt, NumberedYear { number }, month_and_day, bytes);
    }
}

#[test]
fn julian_dates_have_their_bytes(rt: HostRuntime) {
    let first = Julian.year_info_from_extended(-999979);
    assert_packed(&rt, first, (7, 17), [241, 170, 123, 225]);
    let last = Julian.year_info_from_extended(999979);
    assert_packed(&rt, last, (6, 21), [213, 86, 132, 30]);
}

#[test]
fn indian_dates_have_their_bytes(rt: HostRuntime) {
    let first = Indian.year_info_from_extended(-1000078);
    assert_packed(&rt, first, (10, 11), [75, 229, 122, 225]);
    let last = Indian.year_info_from_extended(999921);
    assert_packed(&rt, last, (10, 10), [74, 227, 131, 30]);
}

#[test]
fn persian_dates_have_their_bytes(rt: HostRuntime) {
    let persian = Persian::new(PersianCorrections::none());
    let first = persian.year_info_from_extended(-1000621);
    assert_packed(&rt, first, (7, 26), [250, 166, 118, 225]);
    let last = persian.year_info_from_extended(999378);
    assert_packed(&rt, last, (12, 25), [153, 165, 127, 30]);
}

#[test]
fn coptic_dates_have_their_bytes(rt: HostRuntime) {
    let first = Coptic.year_info_from_extended(-1000263);
    assert_packed(&rt, first, (11, 23), [119, 115, 121, 225]);
    let last = Coptic.year_info_from_extended(999695);
    assert_packed(&rt, last, (10, 27), [91, 31, 130, 30]);
}

/// The Ethiopian year 1 is the Coptic year -275.
#[test]
fn ethiopian_dates_have_the_bytes_of_coptic_years(rt: HostRuntime) {
    let packed = Ethiopian::new().year_info_from_extended(1).pack(13, 5);
    assert_at(&rt, 1, packed, [165, 219, 253, 255]);
    let coptic = Coptic.year_info_from_extended(-275);
    assert_at(&rt, 1, NumberedYear::unpack_year(packed), coptic);
}
