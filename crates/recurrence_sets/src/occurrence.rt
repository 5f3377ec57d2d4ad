//! Occurrences of recurrence sets.

use cal_days::RataDie;

/// An occurrence of a recurrence set.
#[derive(Clone, Copy, Debug, PartialEq)]
pub struct Occurrence {
    /// How many occurrences come before it, from the start on.
    pub index: u32,
    /// The day number (rata die), from -365242499 to 365242134.
    pub day: RataDie,
}
