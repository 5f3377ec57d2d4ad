//! The Hebrew calendar.
#![tactic(auto)]

mod hebrew;
mod hebrew_months;
mod hebrew_year;

pub use hebrew::{Hebrew, HebrewDateInner};
pub use hebrew_year::HebrewYear;
