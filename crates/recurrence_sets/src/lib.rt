//! Days of recurrence sets as bits: the days of a period, places among them, and their listing in order.
//!
//! Nothing here knows a calendar or a rule. [`PeriodDays`] holds some of 448 days in a row. [`Periods`] are the periods
//! of a recurrence set, and [`Listing`] lists their days in order, each once, with the number of days before each.
#![tactic(auto)]

mod bounds;
mod day_bits;
mod day_sets;
mod listing;
mod looks;
mod near_looks;
mod occurrence;
mod passing;
mod period_days;
mod periods;
mod places;

pub use bounds::Bounds;
pub use listing::Listing;
pub use occurrence::Occurrence;
pub use period_days::PeriodDays;
pub use periods::Periods;
pub use places::keep_places;
