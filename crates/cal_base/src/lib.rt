//! The traits of calendars (start at [`Calendar`]), and the ISO calendar.
#![tactic(auto)]

mod abstract_gregorian;
mod arithmetic;
mod calendar;
pub mod gregorian_months;
mod gregorian_years;
mod iso;
mod iso_days;
mod named_years;
mod numbered_year;
pub mod plain_months;
mod refs;
pub mod scaffold;
pub mod year_days;

pub use abstract_gregorian::AbstractGregorian;
pub use arithmetic::{Arithmetic, Incompatible};
pub use calendar::{AsCalendar, Calendar};
pub use gregorian_years::GregorianYears;
pub use iso::{Iso, IsoDateInner, IsoYears};
pub use named_years::NamedYears;
pub use numbered_year::NumberedYear;
pub use refs::Ref;
