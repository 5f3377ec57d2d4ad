//! Dates of the small calendar; and each call of a calendar through the trait.

mod calendars;
mod counted_look_ups;
mod dates;
mod expected;
mod made_dates;
mod placed_dates;
mod shown_dates;
