//! Day numbers, and the years of each calendar rule as closed formulas.
//!
//! A day is a [`RataDie`]: a whole number that counts from day 1, which is 0001-01-01 in the proleptic Gregorian
//! calendar. The module of each calendar computes the day on which a year starts, whether the year is a leap year,
//! and the year that contains a day. The rules are from Reingold and Dershowitz, Calendrical Calculations.
#![tactic(auto)]

pub mod coptic;
mod easter;
pub mod gregorian;
pub mod hebrew;
pub mod islamic;
pub mod julian;
pub mod persian;
pub mod ranges;
pub mod rata_die;

pub use rata_die::RataDie;
