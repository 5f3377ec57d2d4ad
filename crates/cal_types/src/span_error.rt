//! The error of a difference of two bags of fields.

use cal_errors::DateFromFieldsError;

/// One of two bags of fields.
#[derive(Clone, Copy, Debug, PartialEq, Eq)]
pub enum BagSide {
    /// The first bag.
    From,
    /// The second bag.
    To,
}

/// The first of two bags that names no date, and the reason.
#[derive(Clone, Copy, Debug, PartialEq)]
pub struct SpanError {
    /// The bag. It is the second one only if the first names a date.
    pub side: BagSide,
    /// The first error of that bag.
    pub cause: DateFromFieldsError,
}
