//! The examples of the docs: calls whose steps are counted, and tables of one's own.

ghost use Rattle.std.specs.Prelude.{◌≡◌, ◌<◌};

use super::over_any::iso::show_counted;
use icu_calendar::{
    Date, EastAsianTable, HijriTable, Iso, JapaneseEras, PersianCorrections, Side, Tables,
};
use std::marker::Brand;
use std::process::Abort;
use std::sync::ledger::{Blank, Ledger};

/// The examples of [`counted_calls`].
fn show_counted_calls<L: Ledger>(rt: &impl Abort, blank: Blank) -> Option<()>
    requires name { blank.name ≡ L.name }
    requires parts { blank.parts ≡ L.parts }
    requires some { 0 < blank.parts }
{
    let first = Date::try_new_iso(2024, 3, 1).ok()?;
    let second = Date::try_new_iso(2024, 3, 8).ok()?;
    show_counted::<Iso, L>(rt, Iso, first, second, blank)
}

#[test]
fn counted_calls(rt: HostRuntime) {
    assert!(rt; show_counted_calls::<Brand>(&rt, Blank::new(1)).is_some());
}

/// The examples of [`tables_of_ones_own`].
fn show_tables_of_ones_own() -> Option<()> {
    let tables = Tables::try_new(
        EastAsianTable::none(Side::China),
        EastAsianTable::none(Side::Korea),
        HijriTable::none(),
        PersianCorrections::none(),
        JapaneseEras::up_to_reiwa(),
    )?;
    let japanese = tables.japanese();
    Some(())
}

#[test]
fn tables_of_ones_own(rt: HostRuntime) {
    assert!(rt; show_tables_of_ones_own().is_some());
}
