//! The tables of the calendars, and the calendars that use them.
//!
//! Start with [`Tables`]: [`Tables::none`] has no rows, and [`Tables::try_new`] collects five tables.
#![tactic(auto)]

mod tables;

pub use tables::Tables;
