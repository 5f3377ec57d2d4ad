//! Laws of rows and of tabular rules, each proved as the contract of a function.

ghost use Rattle.std.specs.Prelude.{◌≡◌, IsTrue};
ghost use Rattle.std.specs.Ordering.{nat_cmp};
ghost use Rattle.cal_hijri.specs.HijriRows.{names_year, row_year};
ghost use Rattle.cal_hijri.specs.RuleOrder.{epoch_place, leap_years_place};
ghost use Rattle.cal_hijri.specs.TabularRules.{rules_place};
ghost use Rattle.cal_hijri.specs.declared.hijri_row.HijriRow.{HijriRow};

use crate::tabular_algorithm::{
    TabularAlgorithm, TabularAlgorithmEpoch, TabularAlgorithmLeapYears,
};
use std::cmp::Ordering;

/// Epochs are ordered: Thursday is less than Friday.
pub fn order_of_epochs(first: TabularAlgorithmEpoch, second: TabularAlgorithmEpoch) -> Ordering
    ensures { result ≡ nat_cmp (epoch_place first) (epoch_place second) }
{
    first.cmp(&second)
}

/// Rules of leap years are ordered: type II is less than type I.
pub fn order_of_leap_years(
    first: TabularAlgorithmLeapYears,
    second: TabularAlgorithmLeapYears,
) -> Ordering
    ensures { result ≡ nat_cmp (leap_years_place first) (leap_years_place second) }
{
    first.cmp(&second)
}

/// Tabular rules are ordered by their leap years, then by their epoch.
pub fn order_of_rules(first: TabularAlgorithm, second: TabularAlgorithm) -> Ordering
    ensures { result ≡ nat_cmp (rules_place first) (rules_place second) }
{
    first.cmp(&second)
}

/// A year has one row: two rows that name the same year are equal.
pub fn a_year_has_one_row()
    ensures { (one other : HijriRow) → IsTrue (names_year one) → IsTrue (names_year other)
        → row_year one ≡ row_year other → one ≡ other }
{}
