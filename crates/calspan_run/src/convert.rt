//! The command `convert`: the date of each line in a second calendar.

pub(crate) mod answers;
pub(crate) mod days;
pub(crate) mod head;
pub(crate) mod serving;
