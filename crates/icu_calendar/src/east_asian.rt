//! The types for your own rules of a Chinese or Korean calendar.
//! [`EastAsianTraditional`](crate::EastAsianTraditional) makes a calendar of them.
//!
//! [`China`](crate::China) and [`Korea`](crate::Korea) are [`TableRules`], each with its [`TableSide`]. A function over
//! any `S: TableSide` serves both.

pub use cal_east_asian::{EastAsianTraditionalYear, Rules, TableRules, TableSide};
