//! The rules of the Chinese and the Korean calendar with a table of years, and these calendars.

ghost use Rattle.std.specs.Prelude.{◌≡◌};

use crate::east_asian_table::EastAsianTable;
use crate::east_asian_traditional::EastAsianTraditional;
use crate::east_asian_traditional_year::EastAsianTraditionalYear;
use crate::reference_years::reference_year;
use crate::rules::Rules;
use crate::same_rows::have_same_rows;
use crate::table_months::months_between;
use crate::table_sides::{OfChina, OfKorea, TableSide};
use cal_base::scaffold::UnstableSealed;
use cal_types::{CalendarAlgorithm, EcmaReferenceYearError, MismatchedCalendarError, Month};
use std::alloc::AllocError;
use std::marker::PhantomData;

/// The rules of the Chinese or the Korean calendar with a table of years: [`China`] and [`Korea`].
#[derive(Debug)]
pub struct TableRules<'t, S: TableSide> {
    table: EastAsianTable<'t>,
    of: PhantomData<S>,
    ghost side: { table.side ≡ S.side },
}

/// The rules of the Chinese calendar with a table of years.
///
/// **Years without a row are computed**: they and their months may begin a day or a month before or after the published
/// ones. For the published years, pass the table of the crate `published_years` (`china_table`) to
/// [`China::new`](TableRules::new), or use its calendar `chinese`.
///
/// From 1912 on, a year without a row is the mean year at 8 hours from Greenwich. From 1900 to 1911 it is the year of
/// the Qing calendar, and before 1900 the mean year at Beijing's mean time. CLDR's name for the calendar is
/// `chinese`. Dates under two of these rules can be compared if their tables have the same rows.
pub type China<'t> = TableRules<'t, OfChina>;

/// The rules of the Korean calendar with a table of years.
///
/// **Years without a row are computed**: they and their months may begin a day or a month before or after the published
/// ones. For the published years, pass the table of the crate `published_years` (`korea_table`) to
/// [`Korea::new`](TableRules::new), or use its calendar `korean`.
///
/// From 1912 on, a year without a row is the mean year at 9 hours from Greenwich. From 1900 to 1911 it is the year of
/// the Qing calendar, and before 1900 the mean year at Beijing's mean time. CLDR's name for the calendar is `dangi`.
/// Dates under two of these rules can be compared if their tables have the same rows.
pub type Korea<'t> = TableRules<'t, OfKorea>;

/// The Chinese calendar with a table of years.
pub type ChineseTraditional<'t> = EastAsianTraditional<China<'t>>;

/// The Korean calendar with a table of years.
pub type KoreanTraditional<'t> = EastAsianTraditional<Korea<'t>>;

impl<'t, S: TableSide> TableRules<'t, S> {
    /// Creates the rules with a table of years: a table for China for [`China`], and for Korea for [`Korea`].
    ///
    /// [`EastAsianTable::try_new`] creates a table from rows of your own. [`EastAsianTable::none`] creates a table without
    /// rows, so that all years are computed. The crate `published_years` has the published years (`china_table`,
    /// `korea_table`).
    ///
    /// ```
    /// let computed = EastAsianTraditional(China::new(EastAsianTable::none(Side::China)));
    /// let date = Date::from_rata_die(RataDie::new(738946), computed);
    /// assert!(rt; date.year().extended_year() == 2024);
    /// ```
    pub fn new(table: EastAsianTable<'t>) -> TableRules<'t, S>
        requires { table.side ≡ S.side }
        ensures { result.table ≡ table.entry }
    {
        TableRules {
            table,
            of: PhantomData,
        }
    }
}

impl<'t, S: TableSide> EastAsianTraditional<TableRules<'t, S>> {
    /// Creates the calendar with a table of years: a table for China for [`ChineseTraditional`], and for Korea for
    /// [`KoreanTraditional`].
    ///
    /// [`EastAsianTable::try_new`] creates a table from rows of your own. [`EastAsianTable::none`] creates a table without
    /// rows, so that all years are computed. The crate `published_years` has the published years (`china_table`,
    /// `korea_table`).
    ///
    /// ```
    /// let chinese = ChineseTraditional::new(published::china_table());
    /// let date = Date::from_rata_die(RataDie::new(738542), chinese);
    /// assert!(rt; date.day_of_year().0 == 1); // 2023-01-22
    ///
    /// let korean = KoreanTraditional::new(published::korea_table());
    /// let date = Date::from_rata_die(RataDie::new(740019), korean);
    /// assert!(rt; date.day_of_year().0 == 1); // 2027-02-07
    /// ```
    pub fn new(table: EastAsianTable<'t>) -> EastAsianTraditional<TableRules<'t, S>>
        requires { table.side ≡ S.side }
        ensures { result.0.table ≡ table.entry }
    {
        EastAsianTraditional(TableRules::new(table))
    }
}

impl<'t, S: TableSide> Copy for TableRules<'t, S> {}

impl<'t, S: TableSide> Clone for TableRules<'t, S> {
    ghost use Rattle.std.specs.Prelude.{⊤};

    ghost is_clone = { λ a b. b ≡ a };

    ghost is_infallible = { λ _. ⊤ };

    fn clone(&self) -> Result<Self, AllocError> {
        Ok(*self)
    }
}

impl<'t, S: TableSide> UnstableSealed for TableRules<'t, S> {}

impl<'t, S: TableSide> Rules for TableRules<'t, S> {
    ghost use Rattle.std.specs.Prelude.{Some};
    ghost use Rattle.std.specs.Cmp.{on_equiv};
    ghost use Rattle.std.proofs.Common.{refl, sym, ◌∙◌};
    ghost use Rattle.cal_east_asian.specs.EastAsianReferences.{side_reference};
    ghost use Rattle.cal_east_asian.specs.TableRules.{table_year, have_same_rows as same_rows};
    ghost use Rattle.cal_east_asian.specs.laws.TableRuleLaws.{table-years, rows-alike, same_rows-years, side_reference-in_range, side_reference-of_kind, side_reference-of_leap_month};

    type DateCompatibilityError = MismatchedCalendarError;

    ghost year_of = { λ s. table_year s.table };

    ghost reference = { λ _ m d. side_reference S.side m d };

    ghost compatible = { λ s t. same_rows s.table t.table };

    ghost algorithm = { λ _. Some S.algorithm };

    ghost name = { λ _. S.name };

    fn year(&self, related_iso: i32) -> EastAsianTraditionalYear {
        self.table.year(related_iso)
    }

    fn months_by_number(&self, first: i32, last: i32) -> (i32, u32) {
        (last, months_between(&self.table, first, last))
    }

    fn ecma_reference_year(&self, month: Month, day: u8) -> Result<i32, EcmaReferenceYearError> {
        reference_year(S::side(), month, day)
    }

    fn check_date_compatibility(&self, other: &Self) -> Result<(), MismatchedCalendarError> {
        if have_same_rows(self.table.rows(), other.table.rows()) {
            Ok(())
        } else {
            Err(MismatchedCalendarError)
        }
    }

    fn calendar_algorithm(&self) -> Option<CalendarAlgorithm> {
        Some(S::calendar_algorithm())
    }

    fn debug_name(&self) -> &'static str {
        S::debug_name()
    }

    ghost lawful = { λ s. table-years s.table };

    ghost reference_in_range = { λ _ m d y e. side_reference-in_range S.side m d y e };

    ghost reference_of_kind = { λ _ m d e. side_reference-of_kind S.side m d e };

    ghost reference_of_leap_month = { λ _ m d e. side_reference-of_leap_month S.side m d e };

    ghost refusal = { λ _ _ _. record {} };

    ghost alike = { on_equiv (λ s. s.table) rows-alike };

    ghost shared = { λ s t y h _. same_rows-years s.table t.table (s.side ∙ sym t.side) h y };

    ghost shared_references = { λ _ _ _ _ _. refl };

    ghost shared_names = { λ _ _ _. (refl, refl) };
}
