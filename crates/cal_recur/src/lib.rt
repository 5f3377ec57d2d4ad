//! Recurrences: a start date, and that date with a number of years, months, weeks or days added again and again.
//!
//! A [`Rule`] is a unit and a number of it. Occurrence k of a rule is the start with k times that number added, in the
//! start's calendar (ECMAScript Temporal, `NonISODateAdd`). Each occurrence counts from the start and not from the one
//! before it, so a short month doesn't move the later ones. Monthly from January 31, the occurrences are February 28,
//! March 31 and April 30.
//!
//! - [`recur`] lists the occurrences in a [`Window`](cal_types::Window). Start here.
//! - [`occurrence_counted`] computes the day of one occurrence from its index.
//! - [`first_index_counted`] finds the index of the first occurrence on or after a day.
//!
//! No call allocates memory. The last days of January and February 2021:
//!
//! ```
//! let window = Window::try_new(RataDie::new(737821), RataDie::new(737910))?;
//! let rule = Rule::try_new(DateDurationUnit::Months, 1, Missing::Constrain)?;
//! let start = Iso.from_rata_die(RataDie::new(737821));
//! let mut items = recur(Iso, start, rule, window);
//! assert!(rt; items.next()?.day.to_i64_date() == 737821); // 2021-01-31
//! assert!(rt; items.next()?.day.to_i64_date() == 737849); // 2021-02-28
//! ```
//!
//! # The recurrence rules of iCalendar
//!
//! An RRULE of RFC 5545 without BY-parts can be written as a [`Rule`]. FREQ=YEARLY, MONTHLY, WEEKLY or DAILY is the
//! unit, and INTERVAL is `every`. UNTIL is the window's last day, and COUNT is the number of items to take. RSCALE of
//! RFC 7529 is the calendar.
//!
//! SKIP=OMIT, the default of an RRULE without RSCALE, is [`Missing::Skip`]. [`Missing::Constrain`] is SKIP=BACKWARD if
//! the month lacks the day. If the year lacks a leap month, it takes the calendar's stand-in: the regular month with
//! the same number, as SKIP=BACKWARD does. In the Hebrew calendar the stand-in of Adar I is Adar, as under
//! SKIP=FORWARD. Other rules, and their texts, are those of the crates `cal_rule` and `cal_rrule`.
#![tactic(auto)]

mod near;
mod occurrences;
mod recurrence;
mod rule;

pub use occurrences::{first_index_counted, occurrence_counted};
pub use recurrence::{Occurrence, Recurrence, recur};
pub use rule::{Missing, Rule};
