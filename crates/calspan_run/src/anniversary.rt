//! The command `anniversary`: the days in a window on which a month and a day fall, year after year.

pub(crate) mod days;
