//! The date at the head of a line of `calspan convert`.
//!
//! A date is `YEAR-MONTH-DAY`, `ERA YEAR-MONTH-DAY` or `@DAYNUMBER`. `YEAR` and `DAYNUMBER` are an optional `-` or `+`
//! and one to nine digits, `MONTH` is a month code or one or two digits (the ordinal month), `DAY` is one or two digits,
//! and `ERA` is 1 to 16 letters `a` to `z`. Start with [`read_date`].
#![tactic(auto)]

mod dates;
mod numbers;

pub use dates::{DateText, read_date};
