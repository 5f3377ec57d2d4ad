//! Anniversaries in a calendar with a type of its own, such as [`Iso`](crate::Iso).
//!
//! [`anniversaries`](crate::anniversaries()) does the same for a calendar chosen at run time.

pub use cal_anniversary::{Anniversaries, anniversaries};
