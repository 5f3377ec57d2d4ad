//! Dates of which the days are known, eras and corrections that may be given, and defaults.

mod derived;
mod ethiopian;
mod expected;
mod gregorian;
mod julian;
mod later_eras;
mod packed;
mod persian_corrections;
