//! Date arithmetic over any calendar: creating dates, adding durations, differences, and getters.
//!
//! Start at [`ArithmeticDate`]. A calendar implements [`years::Years`], and [`years::DateFieldsResolver`] to create
//! dates from a year, a month and a day or from fields. The contracts are stated over the calendar's list: its years,
//! with their months and lengths. The rules come from ECMAScript Temporal (`NonISODateAdd`, `NonISODateUntil`,
//! `CalendarResolveFields`).
#![tactic(auto)]

mod adding;
pub mod arithmetic_date;
mod constructing;
pub mod dates;
pub mod difference;
mod direction;
pub mod eras;
mod fields;
mod getters;
mod given_years;
pub mod laws;
mod month_names;
mod months;
mod months_between;
mod past;
mod placing;
pub mod steps;
pub mod years;
mod years_between;

pub use adding::can_be_named;
pub use arithmetic_date::ArithmeticDate;
pub use dates::Ymd;
pub use steps::Steps;
pub use years::{DateFieldsResolver, PackWithMD, YearShapes, Years};
