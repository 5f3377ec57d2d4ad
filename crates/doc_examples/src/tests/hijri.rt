//! The examples of the docs: Hijri calendars.

use icu_calendar::hijri::Rules;
use icu_calendar::rows::TableRows;
use icu_calendar::{
    AsCalendar, AstronomicalSimulation, Calendar, Date, DateNewError, Hijri, HijriRow, HijriTable,
    Month, RangeError, RataDie, Tables, TabularAlgorithm, TabularAlgorithmEpoch,
    TabularAlgorithmLeapYears, UmmAlQura, laws, published,
};
use std::process::Abort;
use std::test::Fail;

/// The days of tabular dates, from a Friday and from a Thursday; the examples of rules.
fn show_tabular<A: AsCalendar>(
    rt: &impl Abort,
    of_civil: &Date<A>,
    of_thursday: &Date<A>,
    of_rules: &Date<A>,
)
where
    A::Calendar: Calendar,
{
    let date = of_civil;
    assert!(rt; date.to_rata_die().to_i64_date() == 738750); // 2023-08-18
    let date = of_thursday;
    assert!(rt; date.to_rata_die().to_i64_date() == 738749); // 2023-08-17
    let date = of_rules;
    assert!(rt; date.day_of_month().0 == 1);
}

/// The same over any rules, which costs a tenth of naming them.
fn show_tabular_in<R: Rules>(
    rt: &impl Abort,
    civil: Hijri<R>,
    thursday: Hijri<R>,
    rules: R,
) -> Result<(), RangeError> {
    let date = Date::try_new_hijri_with_calendar(1445, 2, 1, civil)?;
    let of_civil = date;
    let date = Date::try_new_hijri_with_calendar(1445, 2, 1, thursday)?;
    let of_thursday = date;
    let date = Date::from_rata_die(RataDie::new(738750), Hijri(rules)); // 2023-08-18
    show_tabular(rt, &of_civil, &of_thursday, &date);
    Ok(())
}

#[test]
fn tabular_years(rt: HostRuntime) -> Result<(), Fail> {
    let years = TabularAlgorithmLeapYears::TypeII;
    let civil = Hijri::new_tabular(years, TabularAlgorithmEpoch::Friday);
    let thursday = Hijri::new_tabular(years, TabularAlgorithmEpoch::Thursday);
    let rules = TabularAlgorithm::new(
        TabularAlgorithmLeapYears::TypeII,
        TabularAlgorithmEpoch::Friday,
    );
    show_tabular_in(&rt, civil, thursday, rules)?;
    Ok(())
}

/// What is shown of a calendar.
#[derive(Clone, Copy)]
enum Example {
    Computed,
    Published,
    Rebased,
    Kept,
}

/// The examples of a calendar, with a date in it, and with the same calendar with a longer table. Returns a date of the
/// example.
fn show<A: AsCalendar + Copy>(
    rt: &impl Abort,
    calendar: A,
    date: &Date<A>,
    longer: A,
    example: Example,
) -> Result<Date<A>, DateNewError>
where
    A::Calendar: Calendar,
{
    assert!(rt; date.to_rata_die().to_i64_date() == 738946); // 2024-03-01
    match example {
        Example::Computed => {
            let computed = calendar;
            let date = Date::from_rata_die(RataDie::new(738946), computed);
            assert!(rt; date.year().extended_year() == 1445);
            Ok(date)
        }
        Example::Published => {
            let umm_al_qura = calendar;
            let ramadan = Date::try_new(1446.into(), Month::new(9), 1, umm_al_qura)?;
            assert!(rt; ramadan.to_rata_die().to_i64_date() == 739311); // 2025-03-01

            let date = Date::from_rata_die(RataDie::new(739311), umm_al_qura);
            assert!(rt; date.month().number() == 9); // 2025-03-01, the first day of Ramadan
            Ok(date)
        }
        Example::Rebased => {
            let before = calendar;
            let stored = Date::try_new(1446.into(), Month::new(2), 1, before)?;
            let rebased = stored.rebase(longer);
            assert!(rt; rebased.moved && rebased.date.day_of_month().0 == 2);
            Ok(stored)
        }
        Example::Kept => {
            let before = calendar;
            let stored = Date::try_new(1445.into(), Month::new(9), 1, before)?;
            Ok(stored)
        }
    }
}

/// The same over any rules.
fn show_in<R: Rules>(
    rt: &impl Abort,
    computed: Hijri<R>,
    longer: Hijri<R>,
    example: Example,
) -> Result<Date<Hijri<R>>, Fail> {
    let date = Date::try_new_hijri_with_calendar(1445, 8, 20, computed)?;
    let shown = show(rt, computed, &date, longer, example)?;
    Ok(shown)
}

#[test]
fn years_of_computed_rules(rt: HostRuntime) -> Result<(), Fail> {
    let computed = Hijri::new_umm_al_qura(HijriTable::none());
    show_in(&rt, computed, computed, Example::Computed)?;
    let computed = Hijri(UmmAlQura::new(HijriTable::none()));
    show_in(&rt, computed, computed, Example::Computed)?;

    let computed = Hijri::new_simulated_mecca(HijriTable::none());
    show_in(&rt, computed, computed, Example::Computed)?;
    let computed = Hijri(AstronomicalSimulation::new(HijriTable::none()));
    show_in(&rt, computed, computed, Example::Computed)?;
    let computed = Tables::none().simulated_mecca();
    show_in(&rt, computed, computed, Example::Computed)?;
    Ok(())
}

#[test]
fn published_years(rt: HostRuntime) -> Result<(), Fail> {
    let umm_al_qura = published_years::umm_al_qura();
    show_in(&rt, umm_al_qura, umm_al_qura, Example::Published)?;
    let umm_al_qura = published::tables().umm_al_qura();
    let published = Hijri::new_umm_al_qura(published::umm_al_qura_table());
    show_in(&rt, published, published, Example::Published)?;
    assert!(rt; published::umm_al_qura_table().rows().len() == 301);
    Ok(())
}

/// `row hijri 1445 738720 sllslslslsll`
const YEAR_1445: HijriRow = HijriRow {
    extended_year: 1445,
    long_months: 0xd56,
    start_offset: 5,
};

/// `row hijri 1446 739075 sllslslslsls`
const YEAR_1446: HijriRow = HijriRow {
    extended_year: 1446,
    long_months: 0x556,
    start_offset: 6,
};

#[test]
fn stored_dates(rt: HostRuntime) -> Result<(), Fail> {
    let table = HijriTable::try_new(&[YEAR_1445])?;
    let before = Hijri::new_umm_al_qura(table);
    let rows = [YEAR_1445, YEAR_1446];
    let longer = Hijri::new_umm_al_qura(table.lengthened(&rows)?);
    show_in(&rt, before, longer, Example::Rebased)?;

    let alloc = rt.alloc();
    let text = b"row hijri 1445 738720 sllslslslsll\nrow hijri 1446 739075 sllslslslsls\n";
    let rows = TableRows::try_read(alloc, text)?; // the rows of 1445 and of 1446
    let longer = Hijri::new_umm_al_qura(table.lengthened(rows.umm_al_qura())?);
    show_in(&rt, before, longer, Example::Rebased)?;

    let rows = TableRows::try_read(alloc, b"row hijri 1445 738720 sllslslslsll\n")?;
    assert!(rt; rows.umm_al_qura().len() == 1);
    Ok(())
}

#[test]
fn stored_dates_of_other_years(rt: HostRuntime) -> Result<(), Fail> {
    let computed = HijriTable::none();
    let before = Hijri::new_umm_al_qura(computed);
    let stored = show_in(&rt, before, before, Example::Kept)?;
    let rows = [YEAR_1446];
    let longer = Hijri::new_umm_al_qura(computed.lengthened(&rows)?);
    assert!(rt; !laws::hijri_date_kept(&stored, longer).moved);
    Ok(())
}
