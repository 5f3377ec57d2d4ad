//! A calendar by a list of some of its years, each by its months: it counts as the definitions do, month by month, and
//! is for tests of faster code.
#![tactic(auto)]

pub mod listed_years;

pub use listed_years::{ListedDate, ListedMonth, ListedYears};
