//! The examples of the docs: rows of tables as constant data.

use icu_calendar::rows::TableRows;
use icu_calendar::{
    EastAsianRow, EastAsianTable, EastAsianTraditionalYear, HijriRow, HijriTable, HijriYear,
    RataDie, Side, published, qing_year,
};
use std::process::Abort;
use std::test::Fail;

#[test]
fn a_chinese_row(rt: HostRuntime) {
    static YEAR_2023: EastAsianRow = EastAsianRow {
        related_iso: 2023,
        long_months: 0x15b2,
        leap_month: 3,
        start_offset: 3,
    };
    assert!(rt; YEAR_2023.year().leap_month() == Some(3));
}

#[test]
fn a_hijri_row(rt: HostRuntime) {
    static YEAR_1445: HijriRow = HijriRow {
        extended_year: 1445,
        long_months: 0x92e,
        start_offset: 5,
    };
    assert!(rt; YEAR_1445.year().extended_year() == 1445);
}

#[test]
fn accepted_rows(rt: HostRuntime) -> Result<(), Fail> {
    let rows = published::umm_al_qura_table().rows();
    let table = HijriTable::try_new(rows)?;
    assert!(rt; table.rows().len() == 301); // 1300 to 1600

    let rows = published::china_table().rows();
    let table = EastAsianTable::try_new(Side::China, rows)?;
    assert!(rt; table.rows().len() == 188);
    Ok(())
}

/// The examples of [`years_of_rows`].
fn show_years_of_rows(rt: &impl Abort) -> Option<()> {
    let row = HijriRow {
        extended_year: 1445,
        long_months: 0x92e,
        start_offset: 5,
    };
    assert!(rt; row.year().month_len(1) == 29);
    assert!(rt; row.year().new_year().to_i64_date() == 738720); // 2023-07-19

    assert!(rt; qing_year(1900)?.related_iso() == 1900);

    assert!(rt; qing_year(1900)?.new_year().to_i64_date() == 693626); // 1900-01-31

    assert!(rt; qing_year(1900)?.leap_month() == Some(9)); // behind the month 8

    assert!(rt; qing_year(1900)?.months() == 13);

    let year = qing_year(1900)?;
    assert!(rt; year.months() == 13);
    assert!(rt; year.month_len(13) == 30);

    assert!(rt; qing_year(1900)?.row().leap_month == 9);

    assert!(rt; row.year().row()?.start_offset == 5);
    Some(())
}

#[test]
fn years_of_rows(rt: HostRuntime) {
    assert!(rt; show_years_of_rows(&rt).is_some());
}

#[test]
fn longer_chinese_rows() -> Result<(), Fail> {
    let rows = <[EastAsianRow; 188]>::try_from(published::china_table().rows())?;
    let table = EastAsianTable::try_new(Side::China, &rows[..50])?;
    let lengthened = table.lengthened(&rows)?;
    Ok(())
}

#[test]
fn longer_hijri_rows() -> Result<(), Fail> {
    let rows = <[HijriRow; 301]>::try_from(published::umm_al_qura_table().rows())?;
    let table = HijriTable::try_new(&rows[..50])?;
    let lengthened = table.lengthened(&rows)?;
    Ok(())
}

#[test]
fn years_of_month_starts(rt: HostRuntime) {
    let starts = [RataDie::new(738720); 13]; // no month has a day
    assert!(rt; HijriYear::try_new(1445, starts).is_none());

    let starts = [RataDie::new(738926); 14]; // no month has a day
    assert!(rt; EastAsianTraditionalYear::try_new(2024, starts, None).is_none());
}

#[test]
fn rows_of_lines(rt: HostRuntime) -> Result<(), Fail> {
    let alloc = rt.alloc();
    let rows = TableRows::new(alloc);
    assert!(rt; rows.china().is_empty());

    let mut rows = TableRows::new(alloc);
    rows.take_line(b"row persian 1502")?;

    let rows = TableRows::try_read(alloc, b"# corrected\nrow persian 1502\nrow persian 1601\n")?;
    assert!(rt; rows.tables().is_ok());
    Ok(())
}
