//! Tables that are lengthened, and rows that lengthen none. The Chinese rows are those of GNU Emacs 28.2 (`rows/`);
//! which of them end where a computed year starts was computed by a program of its own, from the formulas of these.

use crate::tests::expected::{assert_at, assert_holds};
use crate::tests::{east_asian, hijri};
use cal_east_asian::{ChineseTraditional, EastAsianRow, EastAsianTable, Side};
use cal_hijri::{Hijri, HijriRow, HijriTable};
use cal_types::{LengthenFault, Month, TableFault, TablePart};
use std::process::Abort;

/// `row hijri 1445 738720 sllslslslsll`
const YEAR_1445: HijriRow = HijriRow {
    extended_year: 1445,
    long_months: 0xd56,
    start_offset: 5,
};

/// `row hijri 1446 739075 sllslslslsls`
const YEAR_1446: HijriRow = HijriRow {
    extended_year: 1446,
    long_months: 0x556,
    start_offset: 6,
};

/// The tabular year: `row hijri 1445 738720 lslslslslsll`
const TABULAR_1445: HijriRow = HijriRow {
    extended_year: 1445,
    long_months: 0xd55,
    start_offset: 5,
};

/// `row hijri 1446 739075 sllslslslsll`, a day longer
const LATE_1446: HijriRow = HijriRow {
    extended_year: 1446,
    long_months: 0xd56,
    start_offset: 6,
};

/// The bits above the twelfth month's are of no month, so the row names no year.
const SAME_1445: HijriRow = HijriRow {
    extended_year: 1445,
    long_months: 0xfd56,
    start_offset: 5,
};

/// `row china 1912 698026 lslsslssllsl 0`
const YEAR_1912: EastAsianRow = EastAsianRow {
    related_iso: 1912,
    long_months: 0xb25,
    leap_month: 0,
    start_offset: 30,
};

/// `row china 1913 698380 llslsslsslsl 0`
const YEAR_1913: EastAsianRow = EastAsianRow {
    related_iso: 1913,
    long_months: 0xa4b,
    leap_month: 0,
    start_offset: 18,
};

/// `row china 1914 698734 llslslslslssl 6`
const YEAR_1914: EastAsianRow = EastAsianRow {
    related_iso: 1914,
    long_months: 0x12ab,
    leap_month: 6,
    start_offset: 7,
};

/// The bit above the twelfth month's is of no month, and no year has a leap month in the place 1: the row names no year.
const SAME_1912: EastAsianRow = EastAsianRow {
    related_iso: 1912,
    long_months: 0x1b25,
    leap_month: 1,
    start_offset: 30,
};

/// With its first two months exchanged.
const OTHER_1912: EastAsianRow = EastAsianRow {
    related_iso: 1912,
    long_months: 0xb26,
    leap_month: 0,
    start_offset: 30,
};

/// That rows lengthen a table, or what fault they have.
fn assert_lengthens(
    rt: &impl Abort,
    table: HijriTable<'_>,
    case: &'static str,
    rows: &[HijriRow],
    fault: Option<LengthenFault>,
) {
    assert_at(rt, case, table.lengthened(rows).err(), fault);
}

/// The fault of a table.
fn fault_in(row: usize, part: TablePart) -> Option<LengthenFault> {
    Some(LengthenFault::Table(TableFault { row, part }))
}

#[test]
fn rows_lengthen_a_hijri_table_or_have_a_fault(rt: HostRuntime) {
    let table = hijri::table_of(&rt, &[YEAR_1445]);
    let differs = Some(LengthenFault::Differs { row: 1 });
    assert_lengthens(&rt, table, "a year more", &[YEAR_1445, YEAR_1446], None);
    assert_lengthens(&rt, table, "no year more", &[YEAR_1445], None);
    let no_year = fault_in(1, TablePart::Range);
    let rows = [SAME_1445, YEAR_1446];
    assert_lengthens(&rt, table, "a row of no year", &rows, no_year);
    assert_lengthens(&rt, table, "another year 1445", &[TABULAR_1445], differs);
    assert_lengthens(&rt, table, "no rows", &[], differs);
    let late = fault_in(2, TablePart::End);
    assert_lengthens(&rt, table, "a late end", &[YEAR_1445, LATE_1446], late);
    let twice = fault_in(2, TablePart::Year);
    assert_lengthens(&rt, table, "a year twice", &[YEAR_1445, YEAR_1445], twice);
}

#[test]
fn a_longer_hijri_table_has_the_day_of_its_new_row(rt: HostRuntime) {
    let table = hijri::table_of(&rt, &[YEAR_1445]);
    let rows = [YEAR_1445, YEAR_1446];
    let longer = table.lengthened(&rows).expect(&rt, "it is lengthened");
    let umm_al_qura = Hijri::new_umm_al_qura(longer);
    hijri::assert_dated(&rt, &umm_al_qura, (1446, Month::new(2), 2), 739105);
    assert_lengthens(&rt, longer, "its own rows", &rows, None);
    let differs = Some(LengthenFault::Differs { row: 2 });
    assert_lengthens(&rt, longer, "a row less", &[YEAR_1445], differs);
}

/// That rows lengthen the table of 1912 of a side, or what fault they have.
fn assert_lengthens_side(
    rt: &impl Abort,
    side: Side,
    rows: &[EastAsianRow],
    fault: Option<LengthenFault>,
) {
    let table = EastAsianTable::try_new(side, &[YEAR_1912]).expect(rt, "the table is accepted");
    assert_at(rt, side, table.lengthened(rows).err(), fault);
}

#[test]
fn rows_lengthen_an_east_asian_table_or_have_a_fault(rt: HostRuntime) {
    let published = [YEAR_1912, YEAR_1913, YEAR_1914];
    let differs = Some(LengthenFault::Differs { row: 1 });
    let short = fault_in(2, TablePart::End);
    let late_korean = fault_in(3, TablePart::End);
    assert_lengthens_side(&rt, Side::China, &published, None);
    let no_year = fault_in(1, TablePart::Range);
    assert_lengthens_side(
        &rt,
        Side::China,
        &[SAME_1912, YEAR_1913, YEAR_1914],
        no_year,
    );
    assert_lengthens_side(&rt, Side::China, &[OTHER_1912], differs);
    assert_lengthens_side(&rt, Side::China, &[], differs);
    assert_lengthens_side(&rt, Side::China, &[YEAR_1912, YEAR_1913], short);
    assert_lengthens_side(&rt, Side::Korea, &published, late_korean);
}

/// The leap month 5 of 1914 begins on 1914-06-23.
#[test]
fn a_longer_chinese_table_has_the_leap_month_of_its_new_row(rt: HostRuntime) {
    let table = east_asian::table_of(&rt, &[YEAR_1912]);
    let rows = [YEAR_1912, YEAR_1913, YEAR_1914];
    let longer = table.lengthened(&rows).expect(&rt, "it is lengthened");
    assert_holds(&rt, "the side stays", longer.side() == Side::China);
    let chinese = ChineseTraditional::new(longer);
    east_asian::assert_dated(&rt, &chinese, (1914, Month::leap(5), 1), 698882);
}
