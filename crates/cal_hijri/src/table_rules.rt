//! The rules of calendars with a table of years: [`UmmAlQura`] and [`AstronomicalSimulation`].

ghost use Rattle.std.specs.Prelude.{◌≡◌, ℕ, List, Option};
ghost use Rattle.cal_errors.specs.declared.algorithm.CalendarAlgorithm.{CalendarAlgorithm};

use crate::hijri_table::HijriTable;
use crate::hijri_year::HijriYear;
use crate::rules::Rules;
use crate::table_references::reference_year_of_tables;
use cal_base::scaffold::UnstableSealed;
use cal_types::{
    CalendarAlgorithm, EcmaReferenceYearError, HijriCalendarAlgorithm, MismatchedCalendarError,
    Month,
};
use std::marker::PhantomData;

/// The names of a calendar with a table of years.
pub trait TablePurpose: UnstableSealed {
    /// The algorithm by which CLDR names the calendar.
    ghost algorithm: { Option CalendarAlgorithm };

    /// The name of the calendar in English.
    ghost name: { List ℕ };

    /// Returns the algorithm by which CLDR names the calendar (UTS 35), or `None` if it has no name for it.
    fn calendar_algorithm() -> Option<CalendarAlgorithm>
        ensures { result ≡ algorithm };

    /// Returns the name of the calendar in English.
    fn debug_name() -> &'static str
        ensures { result.now ≡ name };
}

/// Marks the years of Saudi Arabia: [`UmmAlQura`].
#[derive(Clone, Copy, Debug)]
pub struct OfSaudiArabia;

/// Marks the years of the simulated first sight of the new moon at Mecca: [`AstronomicalSimulation`].
#[derive(Clone, Copy, Debug)]
pub struct OfMecca;

impl UnstableSealed for OfSaudiArabia {}

impl UnstableSealed for OfMecca {}

impl TablePurpose for OfSaudiArabia {
    ghost use Rattle.std.specs.Prelude.{codes, Some};
    ghost use Rattle.cal_errors.specs.declared.algorithm.CalendarAlgorithm.TheVariants.{Hijri};
    ghost use Rattle.cal_errors.specs.declared.algorithm.HijriCalendarAlgorithm.TheVariants.{Umalqura};

    ghost algorithm = { Some (Hijri (Some Umalqura)) };

    ghost name = { codes "Hijri (Umm al-Qura)" };

    fn calendar_algorithm() -> Option<CalendarAlgorithm> {
        Some(CalendarAlgorithm::Hijri(Some(HijriCalendarAlgorithm::Umalqura)))
    }

    fn debug_name() -> &'static str {
        "Hijri (Umm al-Qura)"
    }
}

impl TablePurpose for OfMecca {
    ghost use Rattle.std.specs.Prelude.{codes, None};

    ghost algorithm = { None };

    ghost name = { codes "Hijri (simulated, Mecca)" };

    fn calendar_algorithm() -> Option<CalendarAlgorithm> {
        None
    }

    fn debug_name() -> &'static str {
        "Hijri (simulated, Mecca)"
    }
}

/// The rules of a calendar with a table of years.
///
/// A year is its row in the table, or else the tabular year of type II with the epoch Friday. **Years without a row are
/// computed**: they and their months may begin a day or more before or after the published ones.
///
/// Dates under two rules of the same purpose can be compared if their tables have the same rows.
#[derive_where(Clone, Copy, Debug)]
pub struct TableRules<'t, P> {
    table: HijriTable<'t>,
    of: PhantomData<P>,
}

/// The rules of the Umm al-Qura calendar of Saudi Arabia, with a table of years.
///
/// A year is its row in the table, or else the tabular year of type II with the epoch Friday. **Years without a row are
/// computed**: they and their months may begin a day or more before or after the published ones.
///
/// For the published years, pass the table of the crate `published_years` (`umm_al_qura_table`) to
/// [`UmmAlQura::new`](TableRules::new), or use its calendar `umm_al_qura`.
///
/// CLDR's name for the calendar is `islamic-umalqura`. Dates under two of these rules can be compared if their tables
/// have the same rows.
pub type UmmAlQura<'t> = TableRules<'t, OfSaudiArabia>;

/// The rules of the calendar of the simulated first sight of the new moon at Mecca, with a table of years.
///
/// A year is its row in the table, or else the tabular year of type II with the epoch Friday. **Years without a row are
/// computed**: they and their months may begin a day or more before or after the published ones.
///
/// The crate `published_years` has no years of this calendar. Pass rows of your own to [`HijriTable::try_new`].
///
/// CLDR has no name for the calendar. Dates under two of these rules can be compared if their tables have the same
/// rows.
pub type AstronomicalSimulation<'t> = TableRules<'t, OfMecca>;

impl<'t, P> TableRules<'t, P> {
    /// Creates the rules with a table of years.
    ///
    /// ```
    /// let computed = Hijri(UmmAlQura::new(HijriTable::none()));
    /// let date = Date::from_rata_die(RataDie::new(738946), computed);
    /// assert!(rt; date.year().extended_year() == 1445);
    /// ```
    pub fn new(table: HijriTable<'t>) -> TableRules<'t, P>
        ensures { result.table ≡ table.entry }
    {
        TableRules {
            table,
            of: PhantomData,
        }
    }
}

impl<'t, P: TablePurpose> UnstableSealed for TableRules<'t, P> {}

impl<'t, P: TablePurpose> Rules for TableRules<'t, P> {
    ghost use Rattle.std.specs.Cmp.{on_equiv};
    ghost use Rattle.std.proofs.Common.{refl};
    ghost use Rattle.cal_hijri.specs.HijriRows.{years_of};
    ghost use Rattle.cal_hijri.specs.SameRows.{are_same_rows};
    ghost use Rattle.cal_hijri.specs.laws.TableRuleLaws.{same_rows-equivalence, table-joins, table-numbered, table-references, table-shared};
    ghost use Rattle.cal_hijri.specs.TableRules.{table_reference, table_year};

    type DateCompatibilityError = MismatchedCalendarError;

    ghost year_of = { λ s y. table_year (years_of s.table.rows.now) y };

    ghost reference = { λ _ m d. table_reference m d };

    ghost compatible = { λ s t. are_same_rows (years_of s.table.rows.now) (years_of t.table.rows.now) };

    ghost algorithm = { λ _. P.algorithm };

    ghost name = { λ _. P.name };

    fn year(&self, extended_year: i32) -> HijriYear {
        self.table.year(extended_year)
    }

    fn ecma_reference_year(&self, month: Month, day: u8) -> Result<i32, EcmaReferenceYearError> {
        reference_year_of_tables(month, day)
    }

    fn check_date_compatibility(&self, other: &Self) -> Result<(), MismatchedCalendarError> {
        if self.table.has_rows_of(&other.table) {
            Ok(())
        } else {
            Err(MismatchedCalendarError)
        }
    }

    fn calendar_algorithm(&self) -> Option<CalendarAlgorithm> {
        P::calendar_algorithm()
    }

    fn debug_name(&self) -> &'static str {
        P::debug_name()
    }

    ghost numbered = { λ s. table-numbered (years_of s.table.rows.now) s.table.accepted };

    ghost joins = { λ s. table-joins (years_of s.table.rows.now) s.table.accepted };

    ghost references = { λ _. table-references };

    ghost refusal = { λ _ _ _. record {} };

    ghost alike = { on_equiv (λ s. years_of s.table.rows.now) same_rows-equivalence };

    ghost shared = { λ s t y h _. table-shared (years_of s.table.rows.now) (years_of t.table.rows.now) y h };

    ghost shared_references = { λ _ _ _ _ _. refl };

    ghost shared_names = { λ _ _ _. (refl, refl) };
}
