//! Rules that are read from texts, and the first error of those that are none.

mod errors;
mod expected;
mod rules;
