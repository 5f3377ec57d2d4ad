//! Tasks in the calendar of a kind, in the calendar's own type.
//!
//! A [`CalendarTask`] is something to do in a calendar of any type. [`run_in_kind`] runs a task in the calendar of a kind
//! that is chosen at run time. It branches over the kinds once, and the task is compiled for each calendar's own type. The
//! tables that some calendars use come from a [`TableSource`].
//!
//! ```text
//! /// The task of counting the days of the year that contains a day.
//! #[derive(Clone, Copy)]
//! struct YearLength {
//!     day: RataDie,
//! }
//!
//! impl CalendarTask<()> for YearLength {
//!     type Answer = u16;
//!
//!     ghost asks = { λ t _ _. IsValidDay t.day };
//!
//!     ghost done = { λ t s _ _ length.
//!         (date : Date) × (IsOn s.list t.day date) × (length ≡ year_length s.list date.year) };
//!
//!     fn run<C: Calendar + Copy>(&self, _nothing: &mut (), calendar: C) -> u16 {
//!         calendar.days_in_year(&calendar.from_rata_die(self.day))
//!     }
//! }
//!
//! let day = RataDie::new(738946); // in the Hebrew year 5784, a leap year
//! let length = run_in_kind(&YearLength { day }, &mut (), AnyCalendarKind::Hebrew, &Tables::none());
//! assert!(rt; length == 383);
//! ```
#![tactic(auto)]

mod dispatch;
mod sources;
mod tabular;
mod tasks;

pub use dispatch::run_in_kind;
pub use sources::TableSource;
pub use tasks::CalendarTask;
