//! Rules of a caller that count how often one of their years is looked up.

ghost use Rattle.std.specs.Prelude.{◌≡◌, ◌<◌};
ghost use Rattle.cal_days.specs.Day.{IsRuleYear, IsValidDay};

use crate::late_rules::Late;
use crate::mean_rules::MeanRules;
use crate::tests::east_asian::{hundred_rows, table_of};
use crate::tests::expected::{assert_at, assert_day};
use crate::tests::hijri;
use cal_arith::Steps;
use cal_base::Calendar;
use cal_base::scaffold::UnstableSealed;
use cal_days::RataDie;
use cal_east_asian::{
    China, EastAsianTable, EastAsianTraditional, EastAsianTraditionalYear, Rules, Side,
};
use cal_hijri::{
    Hijri, HijriRow, HijriTable, HijriYear, TabularAlgorithm, TabularAlgorithmEpoch,
    TabularAlgorithmLeapYears, UmmAlQura,
};
use cal_types::{
    CalendarAlgorithm, DateDifferenceOptions, DateDurationUnit, EcmaReferenceYearError, Month,
};
use std::cell::Cell;
use std::fmt;
use std::fmt::Debug;
use std::marker::Brand;
use std::process::Abort;
use std::sync::ledger::{Blank, Ledger};

/// Rules, with how many years were looked up by them.
#[derive(Clone, Copy)]
struct Counted<'c, R> {
    rules: R,
    years: &'c Cell<u32>,
}

impl<'c, R: Debug> Debug for Counted<'c, R> {
    fn fmt<W: fmt::Write>(&self, f: &mut fmt::Formatter<W>) -> fmt::Result {
        self.rules.fmt(f)
    }
}

/// Counts one more.
fn count(number: &Cell<u32>) {
    number.set(number.get().saturating_add(1));
}

impl<'c, R> UnstableSealed for Counted<'c, R> {}

impl<'c, R: Rules> Rules for Counted<'c, R> {
    ghost use Rattle.std.specs.Cmp.{on_equiv};

    type DateCompatibilityError = R::DateCompatibilityError;

    ghost year_of = { λ s. R.year_of s.rules };

    ghost reference = { λ s. R.reference s.rules };

    ghost compatible = { λ s t. R.compatible s.rules t.rules };

    ghost algorithm = { λ s. R.algorithm s.rules };

    ghost name = { λ s. R.name s.rules };

    fn year(&self, related_iso: i32) -> EastAsianTraditionalYear {
        count(self.years);
        self.rules.year(related_iso)
    }

    fn ecma_reference_year(&self, month: Month, day: u8) -> Result<i32, EcmaReferenceYearError> {
        self.rules.ecma_reference_year(month, day)
    }

    fn check_date_compatibility(&self, other: &Self) -> Result<(), R::DateCompatibilityError> {
        self.rules.check_date_compatibility(&other.rules)
    }

    fn calendar_algorithm(&self) -> Option<CalendarAlgorithm> {
        self.rules.calendar_algorithm()
    }

    fn debug_name(&self) -> &'static str {
        self.rules.debug_name()
    }

    ghost lawful = { λ s. R.lawful s.rules };

    ghost reference_in_range = { λ s. R.reference_in_range s.rules };

    ghost reference_of_kind = { λ s. R.reference_of_kind s.rules };

    ghost reference_of_leap_month = { λ s. R.reference_of_leap_month s.rules };

    ghost refusal = { λ s t. R.refusal s.rules t.rules };

    ghost alike = { on_equiv (λ s. s.rules) R.alike };

    ghost shared = { λ s t. R.shared s.rules t.rules };

    ghost shared_references = { λ s t. R.shared_references s.rules t.rules };

    ghost shared_names = { λ s t. R.shared_names s.rules t.rules };
}

impl<'c, R: cal_hijri::Rules> cal_hijri::Rules for Counted<'c, R> {
    ghost use Rattle.std.specs.Cmp.{on_equiv};

    type DateCompatibilityError = R::DateCompatibilityError;

    ghost year_of = { λ s. R.year_of s.rules };

    ghost reference = { λ s. R.reference s.rules };

    ghost compatible = { λ s t. R.compatible s.rules t.rules };

    ghost algorithm = { λ s. R.algorithm s.rules };

    ghost name = { λ s. R.name s.rules };

    fn year(&self, extended_year: i32) -> HijriYear {
        count(self.years);
        self.rules.year(extended_year)
    }

    fn ecma_reference_year(&self, month: Month, day: u8) -> Result<i32, EcmaReferenceYearError> {
        self.rules.ecma_reference_year(month, day)
    }

    fn check_date_compatibility(&self, other: &Self) -> Result<(), R::DateCompatibilityError> {
        self.rules.check_date_compatibility(&other.rules)
    }

    fn calendar_algorithm(&self) -> Option<CalendarAlgorithm> {
        self.rules.calendar_algorithm()
    }

    fn debug_name(&self) -> &'static str {
        self.rules.debug_name()
    }

    ghost numbered = { λ s. R.numbered s.rules };

    ghost joins = { λ s. R.joins s.rules };

    ghost references = { λ s. R.references s.rules };

    ghost refusal = { λ s t. R.refusal s.rules t.rules };

    ghost alike = { on_equiv (λ s. s.rules) R.alike };

    ghost shared = { λ s t. R.shared s.rules t.rules };

    ghost shared_references = { λ s t. R.shared_references s.rules t.rules };

    ghost shared_names = { λ s t. R.shared_names s.rules t.rules };
}

/// The row of a tabular year.
fn tabular_row(extended_year: i32) -> Option<HijriRow>
    requires { IsRuleYear extended_year }
{
    use cal_hijri::Rules;
    let leap_years = TabularAlgorithmLeapYears::TypeII;
    TabularAlgorithm::new(leap_years, TabularAlgorithmEpoch::Friday)
        .year(extended_year)
        .row()
}

/// How many years the difference of two days looks up, by a counter that starts at 0.
fn looked_up_with<C: Calendar, L: Ledger>(
    calendar: &C,
    years: &Cell<u32>,
    days: (i64, i64),
    options: DateDifferenceOptions,
    blank: Blank,
) -> u32
    requires from { IsValidDay days.0 }
    requires to { IsValidDay days.1 }
    requires name { blank.name ≡ L.name }
    requires parts { blank.parts ≡ L.parts }
    requires some { 0 < blank.parts }
{
    let first = calendar.from_rata_die(RataDie::new(days.0));
    let second = calendar.from_rata_die(RataDie::new(days.1));
    let mut steps = Steps::<L>::new(blank);
    years.set(0);
    let _ = calendar.until_counted(&first, &second, options, &mut steps);
    years.get()
}

/// How many years the difference of two days looks up.
fn looked_up<C: Calendar>(
    calendar: &C,
    years: &Cell<u32>,
    days: (i64, i64),
    unit: DateDurationUnit,
) -> u32
    requires from { IsValidDay days.0 }
    requires to { IsValidDay days.1 }
{
    let options = DateDifferenceOptions {
        largest_unit: Some(unit),
    };
    looked_up_with::<C, Brand>(calendar, years, days, options, Blank::new(1))
}

/// That the difference of two days looks up so many years.
fn assert_looked_up<C: Calendar>(
    rt: &impl Abort,
    calendar: &C,
    years: &Cell<u32>,
    days: (i64, i64),
    unit: DateDurationUnit,
    expected: u32,
)
    requires from { IsValidDay days.0 }
    requires to { IsValidDay days.1 }
{
    let found = looked_up(calendar, years, days, unit);
    assert_at(rt, (days.0, unit), found, expected);
}

/// That a difference of Chinese dates from 1900 to 2024, and back, looks up so many years by some rules. The year that the
/// years lead to is looked up once. In months each year from there on to the last one is looked up, and the year before
/// where the last day falls short of the first.
fn assert_chinese<R: Rules>(rt: &impl Abort, rules: R) {
    use DateDurationUnit::{Days, Months, Weeks, Years};
    let years = Cell::new(0);
    let calendar = EastAsianTraditional(Counted {
        rules,
        years: &years,
    });
    for &(from, to, unit, expected) in &[
        (693862, 738926, Days, 1),
        (693862, 738926, Weeks, 1),
        (693862, 738926, Months, 125),
        (693862, 738926, Years, 2),
        (738926, 693862, Days, 1),
        (738926, 693862, Weeks, 1),
        (738926, 693862, Months, 125),
        (738926, 693862, Years, 2),
        (693863, 738926, Days, 1),
        (693863, 738926, Weeks, 1),
        (693863, 738926, Months, 126),
        (693863, 738926, Years, 3),
    ] {
        assert_day(rt, from);
        assert_day(rt, to);
        assert_looked_up(rt, &calendar, &years, (from, to), unit, expected);
    }
}

#[test]
fn years_of_a_longer_table_are_looked_up_no_more_often(rt: HostRuntime) {
    let hundred = hundred_rows();
    let one = [hundred[0]];
    assert_chinese(&rt, MeanRules::new(28_800_000));
    assert_chinese(&rt, China::new(EastAsianTable::none(Side::China)));
    assert_chinese(&rt, China::new(table_of(&rt, &one)));
    assert_chinese(&rt, China::new(table_of(&rt, &hundred)));
}

/// That a difference of Hijri dates looks up one year by some rules: the calendar counts the months of years by their
/// numbers.
fn assert_hijri<R: cal_hijri::Rules>(rt: &impl Abort, rules: R) {
    use DateDurationUnit::{Days, Months, Weeks, Years};
    let years = Cell::new(0);
    let calendar = Hijri(Counted {
        rules,
        years: &years,
    });
    for &(from, to) in &[(693862, 738926), (738926, 693862)] {
        for &unit in &[Days, Weeks, Months, Years] {
            assert_looked_up(rt, &calendar, &years, (from, to), unit, 1);
        }
    }
}

#[test]
fn a_hijri_difference_looks_up_one_year(rt: HostRuntime) {
    let row = tabular_row(1445).expect(&rt, "the year has a row");
    let rows = [row];
    let table = hijri::table_of(&rt, &rows);
    assert_hijri(&rt, Late);
    assert_hijri(&rt, UmmAlQura::new(HijriTable::none()));
    assert_hijri(&rt, UmmAlQura::new(table));
}
