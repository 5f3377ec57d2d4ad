//! The bytes that dates are packed into: those of both ends of the valid days, and of other days.

use crate::tests::expected::{assert_at, assert_packable};
use cal_arith::{PackWithMD, Years};
use cal_east_asian::{
    ChineseTraditional, EastAsianRow, EastAsianTable, EastAsianTraditionalYear, KoreanTraditional,
    Side,
};
use cal_hebrew::{Hebrew, HebrewYear};
use cal_hijri::{Hijri, HijriRow, HijriYear, TabularAlgorithmEpoch, TabularAlgorithmLeapYears};
use std::process::Abort;

/// The month of the place 6 of 5787 is `M05L`.
#[test]
fn hebrew_dates_have_their_bytes(rt: HostRuntime) {
    for &(year, month, day, bytes) in &[
        (-996227, 2, 29, [5, 93, 250, 152, 225]),
        (5787, 6, 10, [5, 202, 54, 45, 0]),
        (1003748, 6, 26, [2, 218, 200, 161, 30]),
    ] {
        assert_packable(&rt, year, month, day);
        let packed = Hebrew.year_info_from_extended(year).pack(month, day);
        assert_at(&rt, year, packed, bytes);
        let kept = HebrewYear::unpack_year(packed);
        assert_at(&rt, year, kept, Hebrew.year_info_from_extended(year));
        assert_at(&rt, year, HebrewYear::unpack_month(packed), month);
        assert_at(&rt, year, HebrewYear::unpack_day(packed), day);
    }
}

/// That a date of the year of a number has these bytes, and that they hold it.
fn assert_hijri_bytes(
    rt: &impl Abort,
    number: i32,
    year: HijriYear,
    (month, day): (u8, u8),
    bytes: [u8; 6],
) {
    assert_packable(rt, year.extended_year(), month, day);
    let packed = year.pack(month, day);
    assert_at(rt, number, packed, bytes);
    let kept = HijriYear::unpack_year(packed);
    assert_at(rt, number, kept.extended_year(), number);
    assert_at(rt, number, kept.new_year(), year.new_year());
    assert_at(rt, number, HijriYear::unpack_month(packed), month);
    assert_at(rt, number, HijriYear::unpack_day(packed), day);
}

#[test]
fn tabular_dates_have_their_bytes(rt: HostRuntime) {
    let hijri = Hijri::new_tabular(
        TabularAlgorithmLeapYears::TypeII,
        TabularAlgorithmEpoch::Friday,
    );
    for &(number, month, day, bytes) in &[
        (-1031331, 6, 22, [85, 5, 214, 186, 134, 224]),
        (-1, 12, 30, [85, 61, 158, 255, 255, 255]),
        (1030050, 3, 30, [85, 37, 126, 68, 111, 31]),
    ] {
        assert_packable(&rt, number, month, day);
        let year = hijri.year_info_from_extended(number);
        assert_hijri_bytes(&rt, number, year, (month, day), bytes);
    }
}

/// The years start 5 days before the start of the mean year, on it, and 5 days after it.
#[test]
fn hijri_dates_have_the_bytes_of_their_rows(rt: HostRuntime) {
    for &(extended_year, long_months, start_offset, month, day, bytes) in &[
        (-1031331, 0xFFF, 0, 12, 30, [255, 191, 158, 187, 134, 224]),
        (1445, 0x92E, 5, 9, 1, [46, 9, 33, 75, 11, 0]),
        (1030050, 0, 10, 1, 1, [0, 160, 33, 68, 111, 31]),
    ] {
        let row = HijriRow {
            extended_year,
            long_months,
            start_offset,
        };
        assert_hijri_bytes(&rt, extended_year, row.year(), (month, day), bytes);
    }
}

/// That a date of a year has these bytes, and that they hold it.
fn assert_bytes(
    rt: &impl Abort,
    year: EastAsianTraditionalYear,
    (month, day): (u8, u8),
    bytes: [u8; 7],
) {
    let number = year.related_iso();
    assert_packable(rt, number, month, day);
    let packed = year.pack(month, day);
    assert_at(rt, number, packed, bytes);
    let kept = EastAsianTraditionalYear::unpack_year(packed);
    assert_at(rt, number, kept.related_iso(), number);
    assert_at(rt, number, kept.new_year(), year.new_year());
    assert_at(rt, number, kept.leap_month(), year.leap_month());
    let unpacked_month = EastAsianTraditionalYear::unpack_month(packed);
    assert_at(rt, number, unpacked_month, month);
    let unpacked_day = EastAsianTraditionalYear::unpack_day(packed);
    assert_at(rt, number, unpacked_day, day);
}

/// The year of a row.
fn year_of_row(
    related_iso: i32,
    long_months: u16,
    leap_month: u8,
    start_offset: u8,
) -> EastAsianTraditionalYear {
    let row = EastAsianRow {
        related_iso,
        long_months,
        leap_month,
        start_offset,
    };
    row.year()
}

/// The years start on January 19, 3 days after it, and 34 days after it.
#[test]
fn east_asian_dates_have_the_bytes_of_their_rows(rt: HostRuntime) {
    let first = year_of_row(-1000000, 0xAAA, 0, 0);
    assert_bytes(&rt, first, (12, 30), [170, 10, 0, 158, 129, 123, 225]);
    let leap = year_of_row(2023, 0x15B2, 3, 3);
    assert_bytes(&rt, leap, (3, 1), [178, 117, 6, 97, 206, 15, 0]);
    let last = year_of_row(1000000, 0x1FFF, 13, 34);
    assert_bytes(&rt, last, (13, 29), [255, 191, 69, 189, 129, 132, 30]);
}

/// Where no row says otherwise, Chinese dates have the bytes of mean years: the first valid day, a year with a leap
/// month in the place 7, and the last valid day. The bytes are those of a program in Python that tries the moons and
/// the terms one after another.
#[test]
fn computed_chinese_dates_have_their_bytes(rt: HostRuntime) {
    let china = ChineseTraditional::new(EastAsianTable::none(Side::China));
    let first = china.year_info_from_extended(-1000000);
    assert_bytes(&rt, first, (11, 23), [170, 6, 62, 119, 129, 123, 225]);
    let leap = china.year_info_from_extended(-999998);
    assert_bytes(&rt, leap, (12, 1), [173, 234, 16, 129, 133, 123, 225]);
    let last = china.year_info_from_extended(999999);
    assert_bytes(&rt, last, (12, 5), [181, 10, 34, 133, 127, 132, 30]);
}

/// So have Korean dates.
#[test]
fn computed_korean_dates_have_their_bytes(rt: HostRuntime) {
    let korea = KoreanTraditional::new(EastAsianTable::none(Side::Korea));
    let first = korea.year_info_from_extended(-1000000);
    assert_bytes(&rt, first, (11, 23), [170, 6, 62, 119, 129, 123, 225]);
    let leap = korea.year_info_from_extended(-999998);
    assert_bytes(&rt, leap, (12, 1), [173, 234, 16, 129, 133, 123, 225]);
    let last = korea.year_info_from_extended(999999);
    assert_bytes(&rt, last, (12, 5), [173, 10, 34, 133, 127, 132, 30]);
}
