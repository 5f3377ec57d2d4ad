//! The Hijri calendars: the calendar [`Hijri`] over any [`Rules`], which decide its years.
//!
//! The rules are [`TabularAlgorithm`], [`UmmAlQura`] and [`AstronomicalSimulation`]; the latter two take a
//! [`HijriTable`] of years. Start with [`Hijri::new_tabular`] or [`Hijri::new_umm_al_qura`].
#![tactic(auto)]

mod hijri;
mod hijri_row;
mod hijri_table;
mod hijri_year;
pub mod laws;
mod rules;
mod table_references;
mod table_rules;
mod tabular_algorithm;
mod type_i_years;

pub use hijri::{Hijri, HijriDateInner};
pub use hijri_row::HijriRow;
pub use hijri_table::HijriTable;
pub use hijri_year::HijriYear;
pub use rules::Rules;
pub use table_rules::{
    AstronomicalSimulation, OfMecca, OfSaudiArabia, TablePurpose, TableRules, UmmAlQura,
};
pub use tabular_algorithm::{
    TabularAlgorithm, TabularAlgorithmEpoch, TabularAlgorithmLeapYears, epoch_of, leap_years_of,
};
