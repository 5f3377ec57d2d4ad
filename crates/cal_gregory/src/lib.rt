//! The calendars with the months of the Gregorian calendar: [`Gregorian`], [`Buddhist`], [`Japanese`] and [`Roc`].
#![tactic(auto)]

mod buddhist;
mod era_start_date;
mod gregorian;
mod japanese;
mod japanese_eras;
mod japanese_eras_iter;
mod later_era;
mod roc;

pub use buddhist::{Buddhist, BuddhistDateInner, BuddhistEraYears};
pub use era_start_date::EraStartDate;
pub use gregorian::{CommonEraYears, Gregorian, GregorianDateInner};
pub use japanese::{Japanese, JapaneseDateInner};
pub use japanese_eras::JapaneseEras;
pub use japanese_eras_iter::JapaneseErasIter;
pub use roc::{MinguoYears, Roc, RocDateInner};
