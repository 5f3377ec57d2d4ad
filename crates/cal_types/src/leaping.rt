//! How to handle years without a month or day.

/// How to handle a month or day that doesn't exist in a year.
#[derive(Clone, Copy, Debug, PartialEq, Eq)]
pub enum Leaping {
    /// Skip the year.
    Exact,
    /// Use the month that stands in for it, or the month's last day.
    Constrain,
}
