//! Recurrence rules of iCalendar (RFC 5545, RRULE; RFC 7529, RSCALE and SKIP) as values.
#![tactic(auto)]

pub mod bits;
mod calendar_name;
mod frequency;
mod kind_ranges;
mod lists;
mod month_set;
mod months;
mod numbers;
mod pieces;
mod place_set;
mod places;
mod reading;
mod rule;
mod rule_error;
mod rule_part;
mod rule_texts;
mod said_values;
mod skip;
mod text_table;
mod until;
mod value_fault;
mod values;
mod weekday_items;
mod weekday_places;
mod weekdays;
mod words;
mod writing;

pub use frequency::Frequency;
pub use month_set::MonthSet;
pub use place_set::{Place, PlaceSet};
pub use rule::RecurrenceRule;
pub use rule_error::RuleError;
pub use rule_part::RulePart;
pub use skip::Skip;
pub use weekday_places::{WeekdayPlace, WeekdayPlaces};
