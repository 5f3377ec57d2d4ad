//! Anniversaries: the days in a window on which a month and a day of a calendar fall, year after year.
//!
//! Start with [`anniversaries`]: it returns an iterator over the days. [`first_anniversary`] returns the first day only.
#![tactic(auto)]

mod errors;
mod first_in_window;
mod iter;
mod listing;
mod window_years;
mod yearly_day;

pub use errors::AnniversaryError;
pub use first_in_window::first_anniversary;
pub use iter::Anniversaries;
pub use listing::anniversaries;
