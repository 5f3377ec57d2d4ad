//! Days that the Hijri calendars are known by, tables that are refused, and a calendar over rules of a caller.

ghost use Rattle.std.specs.Prelude.{◌≡◌, IsTrue, pos};
ghost use Rattle.cal_base.specs.IsoSystem.{iso_belongs};
ghost use Rattle.cal_days.specs.Day.{IsBetween};
ghost use Rattle.cal_types.specs.CalendarList.{day_number};
ghost use Rattle.cal_hijri.specs.HijriRows.{years_of};
ghost use Rattle.cal_hijri.specs.HijriSystem.{hijri_belongs, kept_date};
ghost use Rattle.cal_hijri.specs.TableRules.{table_year, umm_al_qura_system};
ghost use Rattle.cal_hijri.specs.TabularRules.{tabular_system, tabular_year};

use crate::late_rules::Late;
use crate::tests::expected::{assert_at, assert_day, assert_holds, assert_in_order, assert_same};
use cal_base::{Calendar, Iso, IsoDateInner};
use cal_days::RataDie;
use cal_hijri::{
    AstronomicalSimulation, Hijri, HijriDateInner, HijriRow, HijriTable, HijriYear, Rules,
    TabularAlgorithm, TabularAlgorithmEpoch, TabularAlgorithmLeapYears, UmmAlQura,
};
use cal_types::{
    DateFields, DateFromFieldsError, DateFromFieldsOptions, MissingFieldsStrategy, Month,
    TableFault, TablePart, YearInput,
};
use std::process::Abort;

/// The date of an extended year, a month and a day.
fn dated<R: Rules>(
    rt: &impl Abort,
    calendar: &Hijri<R>,
    date: (i32, Month, u8),
) -> HijriDateInner<R>
    ensures { IsTrue (hijri_belongs (R.year_of calendar.now.0) result.0.parts) }
{
    let (year, month, day) = date;
    let made = calendar.new_date(YearInput::Extended(year), month, day);
    made.expect(rt, "the date is there")
}

/// That the date of an extended year, a month and a day has a day number.
pub(super) fn assert_dated<R: Rules>(
    rt: &impl Abort,
    calendar: &Hijri<R>,
    date: (i32, Month, u8),
    number: i64,
) {
    let made = dated(rt, calendar, date);
    assert_same(rt, calendar.to_rata_die(&made).to_i64_date(), number);
}

/// That a date belongs to one of two calendars alone, and that dates of the two can't be compared.
fn assert_apart<R: Rules>(
    rt: &impl Abort,
    own: &Hijri<R>,
    other: &Hijri<R>,
    date: &HijriDateInner<R>,
) {
    assert_same(rt, own.owns(date), true);
    assert_same(rt, other.owns(date), false);
    assert_same(rt, own.check_date_compatibility(other).is_ok(), false);
}

/// That dates of two calendars can be compared where these have the same table, and not where it is another.
fn assert_same_table<R: Rules>(rt: &impl Abort, calendar: &Hijri<R>, other: &Hijri<R>) {
    let same = calendar.check_date_compatibility(calendar).is_ok();
    assert_holds(rt, "the same table", same);
    let different = calendar.check_date_compatibility(other).is_err();
    assert_holds(rt, "another table", different);
}

/// The table of Hijri rows.
pub(super) fn table_of<'t>(rt: &impl Abort, rows: &'t [HijriRow]) -> HijriTable<'t> {
    HijriTable::try_new(rows).expect(rt, "the table is accepted")
}

/// That a day has this year, month and day of the month, and that the date has its day number.
fn assert_date_of_day<R: Rules>(
    rt: &impl Abort,
    calendar: &Hijri<R>,
    day: i64,
    (year, month, day_of_month): (i32, u8, u8),
) {
    assert_day(rt, day);
    let date = calendar.from_rata_die(RataDie::new(day));
    assert_at(rt, day, calendar.extended_year(&date), year);
    assert_at(rt, day, calendar.month(&date).ordinal, month);
    assert_at(rt, day, calendar.day_of_month(&date).0, day_of_month);
    assert_at(rt, day, calendar.to_rata_die(&date).to_i64_date(), day);
}

#[test]
fn late_years_are_found_before_year_1(rt: HostRuntime) {
    let hijri = Hijri(Late);
    for &(day, date) in &[
        (226311, (-2, 12, 30)),
        (226312, (-1, 1, 1)),
        (227019, (0, 12, 29)),
        (227020, (1, 1, 1)),
    ] {
        assert_date_of_day(&rt, &hijri, day, date);
    }
}

#[test]
fn rules_without_reference_years_ask_for_a_year(rt: HostRuntime) {
    let fields = DateFields {
        month: Some(Month::new(1)),
        day: Some(1),
        ..DateFields::default()
    };
    let options = DateFromFieldsOptions {
        overflow: None,
        missing_fields_strategy: Some(MissingFieldsStrategy::Ecma),
    };
    let fault = Hijri(Late).from_fields(fields, options).err();
    assert_same(&rt, fault, Some(DateFromFieldsError::NotEnoughFields));
}

/// 1 Muharram 1445 is 2023-07-19.
#[test]
fn a_tabular_new_year_is_on_its_iso_day(rt: HostRuntime) {
    let hijri = Hijri::new_tabular(
        TabularAlgorithmLeapYears::TypeII,
        TabularAlgorithmEpoch::Friday,
    );
    let date = dated(&rt, &hijri, (1445, Month::new(1), 1));
    let iso = hijri.to_iso(&date);
    assert_same(&rt, parts_of_iso(&iso), (2023, 7, 19));
    assert_same(&rt, hijri.year_info(&date).era.as_str(), "ah");
    assert_holds(&rt, "the leap year", hijri.is_in_leap_year(&date));
}

/// The extended year, the place of the month and the day of the month of a date.
fn parts_of_iso(date: &IsoDateInner) -> (i32, u8, u8)
    requires { IsTrue (iso_belongs date.now) }
{
    (
        Iso.extended_year(date),
        Iso.month(date).ordinal,
        Iso.day_of_month(date).0,
    )
}

/// The first thirty years: whether each is a leap year by type I, and by type II. Source: R. H. van Gent's page on the
/// Arabic calendar, which lists the leap years of both.
const THIRTY_YEARS: [(i32, bool, bool); 30] = [
    (1, false, false),
    (2, true, true),
    (3, false, false),
    (4, false, false),
    (5, true, true),
    (6, false, false),
    (7, true, true),
    (8, false, false),
    (9, false, false),
    (10, true, true),
    (11, false, false),
    (12, false, false),
    (13, true, true),
    (14, false, false),
    (15, true, false),
    (16, false, true),
    (17, false, false),
    (18, true, true),
    (19, false, false),
    (20, false, false),
    (21, true, true),
    (22, false, false),
    (23, false, false),
    (24, true, true),
    (25, false, false),
    (26, true, true),
    (27, false, false),
    (28, false, false),
    (29, true, true),
    (30, false, false),
];

#[test]
fn eleven_of_thirty_years_are_leap_years(rt: HostRuntime) {
    let friday = TabularAlgorithmEpoch::Friday;
    let type_i = Hijri::new_tabular(TabularAlgorithmLeapYears::TypeI, friday);
    let type_ii = Hijri::new_tabular(TabularAlgorithmLeapYears::TypeII, friday);
    for &(place, by_type_i, by_type_ii) in &THIRTY_YEARS {
        for &first in &[-60, 0, 1440] {
            let year = place.wrapping_add(first);
            assert_at(&rt, year, is_leap_year(type_i, year), Some(by_type_i));
            assert_at(&rt, year, is_leap_year(type_ii, year), Some(by_type_ii));
        }
    }
}

#[test]
fn rules_of_type_i_are_others_than_those_of_type_ii(rt: HostRuntime) {
    let friday = TabularAlgorithmEpoch::Friday;
    let type_i = Hijri::new_tabular(TabularAlgorithmLeapYears::TypeI, friday);
    let type_ii = Hijri::new_tabular(TabularAlgorithmLeapYears::TypeII, friday);
    let date = (1455, Month::new(12), 30);
    assert_dated(&rt, &type_i, date, 742618);
    assert_apart(&rt, &type_i, &type_ii, &dated(&rt, &type_i, date));
}

#[test]
fn rules_of_type_i_have_their_names(rt: HostRuntime) {
    let leap_years = TabularAlgorithmLeapYears::TypeI;
    let friday = Hijri::new_tabular(leap_years, TabularAlgorithmEpoch::Friday);
    assert_same(&rt, friday.debug_name(), "Hijri (Type I, Friday)");
    assert_holds(&rt, "no algorithm", friday.calendar_algorithm().is_none());
    let thursday = Hijri::new_tabular(leap_years, TabularAlgorithmEpoch::Thursday);
    assert_same(&rt, thursday.debug_name(), "Hijri (Type I, Thursday)");
}

/// Whether a tabular year is a leap year.
fn is_leap_year(hijri: Hijri<TabularAlgorithm>, year: i32) -> Option<bool> {
    match hijri.new_date(YearInput::Extended(year), Month::new(1), 1) {
        Ok(date) => Some(hijri.is_in_leap_year(&date)),
        Err(_) => None,
    }
}

/// The tabular calendar of type II, from an epoch on.
fn type_ii(epoch: TabularAlgorithmEpoch) -> Hijri<TabularAlgorithm> {
    Hijri::new_tabular(TabularAlgorithmLeapYears::TypeII, epoch)
}

#[test]
fn the_day_before_year_1_is_in_the_first_year_before_the_hijra(rt: HostRuntime) {
    let friday = type_ii(TabularAlgorithmEpoch::Friday);
    let date = friday.from_rata_die(RataDie::new(227014));
    let named = friday.year_info(&date);
    let found = (named.extended_year, named.year, named.era.as_str());
    assert_same(&rt, found, (0, 1, "bh"));
    assert_same(&rt, day_of_tabular(friday, &date).to_i64_date(), 227014);
}

#[test]
fn a_date_belongs_to_its_own_epoch(rt: HostRuntime) {
    let friday = type_ii(TabularAlgorithmEpoch::Friday);
    let thursday = type_ii(TabularAlgorithmEpoch::Thursday);
    let date = friday.from_rata_die(RataDie::new(227014));
    assert_apart(&rt, &friday, &thursday, &date);
}

/// The year 1445 of the Umm al-Qura calendar, if its last month ends where it is to.
fn row_of_1445(end: i64) -> Option<HijriRow>
    requires { IsBetween (pos 0) (pos 1000000) end }
{
    let starts = [
        RataDie::new(738720),
        RataDie::new(738749),
        RataDie::new(738779),
        RataDie::new(738809),
        RataDie::new(738838),
        RataDie::new(738868),
        RataDie::new(738897),
        RataDie::new(738927),
        RataDie::new(738956),
        RataDie::new(738986),
        RataDie::new(739015),
        RataDie::new(739045),
        RataDie::new(end),
    ];
    HijriYear::try_new(1445, starts)?.row()
}

#[test]
fn a_row_takes_the_place_of_a_tabular_year(rt: HostRuntime) {
    let rows = [row_of_1445(739075).expect(&rt, "the year is there")];
    let table = table_of(&rt, &rows);
    let umm_al_qura = Hijri::new_umm_al_qura(table);
    let simulated = Hijri::new_simulated_mecca(HijriTable::none());
    let without = Hijri::new_umm_al_qura(HijriTable::none());
    let date = dated(&rt, &umm_al_qura, (1445, Month::new(2), 1));
    assert_day_by_rows(&rt, umm_al_qura, &date, 738749);
    assert_dated(&rt, &simulated, (1445, Month::new(2), 1), 738750);
    assert_same_table(&rt, &umm_al_qura, &without);
}

/// 1445 starts on day 738720, 5 days after the earliest day, and -8000000 and 8000000 are the last years.
#[test]
fn a_row_is_read_as_the_nearest_year(rt: HostRuntime) {
    for &(start_offset, start) in &[
        (0, 738715),
        (5, 738720),
        (10, 738725),
        (11, 738725),
        (255, 738725),
    ] {
        let row = HijriRow {
            extended_year: 1445,
            long_months: 0x92e,
            start_offset,
        };
        let found = row.year().new_year().to_i64_date();
        assert_at(&rt, start_offset, found, start);
    }
    for &(extended_year, number) in &[
        (-8000001, -8000000),
        (-8000000, -8000000),
        (8000000, 8000000),
        (i32::MAX, 8000000),
    ] {
        let row = HijriRow {
            extended_year,
            long_months: 0x92e,
            start_offset: 5,
        };
        assert_at(&rt, extended_year, row.year().extended_year(), number);
    }
}

/// The row of 1445, with other values of its fields.
fn changed_row(extended_year: i32, long_months: u16, start_offset: u8) -> HijriRow {
    HijriRow {
        extended_year,
        long_months,
        start_offset,
    }
}

/// A row that names no year is refused as such, whatever else its table breaks.
#[test]
fn a_row_that_names_no_year_is_refused_first(rt: HostRuntime) {
    let own = changed_row(1445, 0xd56, 5);
    assert_holds(&rt, "the row", HijriTable::try_new(&[own]).is_ok());
    for &row in &[
        changed_row(1445, 0xd56, 11),
        changed_row(1445, 0xd56, 255),
        changed_row(1445, 0x1d56, 5),
        changed_row(1445, 0xfd56, 5),
        changed_row(8000001, 0xd56, 5),
        changed_row(-8000001, 0xd56, 5),
        changed_row(1, 0xf000, 34),
    ] {
        let part = TablePart::Range;
        let first = HijriTable::try_new(&[row]).err();
        assert_at(&rt, row, first, Some(TableFault { row: 1, part }));
        let second = HijriTable::try_new(&[own, row]).err();
        assert_at(&rt, row, second, Some(TableFault { row: 2, part }));
    }
}

/// The fields of a row.
fn fields_of(row: HijriRow) -> (i32, u16, u8) {
    (row.extended_year, row.long_months, row.start_offset)
}

#[test]
fn a_year_has_one_row(rt: HostRuntime) {
    for &(number, bits, start) in &[
        (1445, 0xd56, 5),
        (1445, 0, 0),
        (-8000000, 4095, 10),
        (8000000, 1, 10),
    ] {
        let row = changed_row(number, bits, start).year().row();
        let row = row.expect(&rt, "the row is there");
        assert_at(&rt, number, fields_of(row), (number, bits, start));
    }
}

#[test]
fn rules_are_ordered_and_hashed_by_leap_years_then_epoch(rt: HostRuntime) {
    let (first, second) = (
        TabularAlgorithmLeapYears::TypeII,
        TabularAlgorithmLeapYears::TypeI,
    );
    let (thursday, friday) = (
        TabularAlgorithmEpoch::Thursday,
        TabularAlgorithmEpoch::Friday,
    );
    assert_in_order(&rt, &[first, second]);
    assert_in_order(&rt, &[thursday, friday]);
    assert_in_order(
        &rt,
        &[
            TabularAlgorithm::new(first, thursday),
            TabularAlgorithm::new(first, friday),
            TabularAlgorithm::new(second, thursday),
            TabularAlgorithm::new(second, friday),
        ],
    );
}

#[test]
fn dates_are_ordered_and_hashed_by_year_month_and_day(rt: HostRuntime) {
    let hijri = type_ii(TabularAlgorithmEpoch::Friday);
    assert_in_order(
        &rt,
        &[
            dated(&rt, &hijri, (-1, Month::new(12), 29)),
            dated(&rt, &hijri, (1444, Month::new(12), 29)),
            dated(&rt, &hijri, (1445, Month::new(1), 1)),
            dated(&rt, &hijri, (1445, Month::new(1), 30)),
            dated(&rt, &hijri, (1445, Month::new(2), 1)),
        ],
    );
}

#[test]
fn a_table_is_refused_for_its_first_fault(rt: HostRuntime) {
    let row = row_of_1445(739075).expect(&rt, "the year is there");
    let short = row_of_1445(739074).expect(&rt, "the year is there");
    assert_holds(&rt, "a month of 31 days", row_of_1445(739076).is_none());
    for &(rows, row, part) in &[
        ([short, short], 2, TablePart::Year),
        ([row, short], 2, TablePart::Year),
    ] {
        let fault = HijriTable::try_new(&rows).err();
        assert_same(&rt, fault, Some(TableFault { row, part }));
    }
    let fault = HijriTable::try_new(&[short]).err();
    let part = TablePart::End;
    assert_same(&rt, fault, Some(TableFault { row: 1, part }));
}

/// The day number of a date, by the definition of the tabular calendars.
fn day_of_tabular(
    hijri: Hijri<TabularAlgorithm>,
    date: &HijriDateInner<TabularAlgorithm>,
) -> RataDie
    requires { IsTrue (hijri_belongs (tabular_year hijri.0) date.now.0.parts) }
    ensures { result ≡ day_number (tabular_system hijri.0).list (kept_date date.now.0.parts) }
{
    hijri.to_rata_die(date)
}

/// The day number of a date, by the definition of the Umm al-Qura calendar with its rows.
fn day_of_umm_al_qura<'t>(
    hijri: Hijri<UmmAlQura<'t>>,
    date: &HijriDateInner<UmmAlQura<'t>>,
) -> RataDie
    requires { IsTrue (hijri_belongs (table_year (years_of hijri.0.table.rows.now)) date.now.0.parts) }
    ensures { result ≡ day_number (umm_al_qura_system (years_of hijri.entry.0.table.rows.now)).list
        (kept_date date.now.0.parts) }
{
    hijri.to_rata_die(date)
}

/// That a date belongs to the Umm al-Qura calendar with its rows, and has a day number.
fn assert_day_by_rows<'t>(
    rt: &impl Abort,
    hijri: Hijri<UmmAlQura<'t>>,
    date: &HijriDateInner<UmmAlQura<'t>>,
    day: i64,
)
    requires { IsTrue (hijri_belongs (table_year (years_of hijri.0.table.rows.now)) date.now.0.parts) }
{
    assert_holds(rt, "its own table", hijri.owns(date));
    assert_same(rt, hijri.to_rata_die(date).to_i64_date(), day);
    assert_same(rt, day_of_umm_al_qura(hijri, date).to_i64_date(), day);
}

/// A calendar under one of the rules.
#[derive(Clone, Copy, Debug)]
enum Held<'t> {
    UmmAlQura(Hijri<UmmAlQura<'t>>),
    Simulated(Hijri<AstronomicalSimulation<'t>>),
    Tabular(Hijri<TabularAlgorithm>),
}

/// A calendar twice.
fn twice<'t>(calendar: Held<'t>) -> (Held<'t>, Held<'t>)
    ensures { (result.0 ≡ calendar.entry) × (result.1 ≡ calendar.entry) }
{
    (calendar, calendar)
}

/// The name of a calendar that was passed on.
fn name_of(calendar: Held<'_>) -> &'static str {
    match twice(calendar).0 {
        Held::UmmAlQura(hijri) => hijri.debug_name(),
        Held::Simulated(hijri) => hijri.debug_name(),
        Held::Tabular(hijri) => hijri.debug_name(),
    }
}

#[test]
fn a_calendar_is_passed_on_by_value(rt: HostRuntime) {
    let table = HijriTable::none();
    let umm_al_qura = name_of(Held::UmmAlQura(Hijri::new_umm_al_qura(table)));
    assert_holds(&rt, "Umm al-Qura", umm_al_qura.len() > 0);
    let simulated = name_of(Held::Simulated(Hijri::new_simulated_mecca(table)));
    assert_holds(&rt, "simulated", simulated.len() > 0);
    let tabular = name_of(Held::Tabular(type_ii(TabularAlgorithmEpoch::Thursday)));
    assert_holds(&rt, "tabular", tabular.len() > 0);
}
