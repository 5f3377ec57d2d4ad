//! The parts that a rule lacks.

/// The parts of a rule that are missing.
#[derive(Clone, Copy)]
pub(crate) struct Missing {
    pub months: bool,
    pub month_days: bool,
    pub year_days: bool,
    pub weeks: bool,
    pub weekdays: bool,
    pub positions: bool,
}
