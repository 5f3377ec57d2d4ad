//! The command `recur`: the occurrences of a rule that adds a number of years, months, weeks or days to a date again
//! and again.

pub(crate) mod occurrences;
