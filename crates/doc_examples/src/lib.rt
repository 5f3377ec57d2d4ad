//! The examples of the docs of `icu_calendar` and of the calendars, run as tests.
//!
//! A calendar is handed to a function over any calendar, or over its rules, that has the examples in it: what a call of a
//! generic function costs its proof is its bounds, once for each function that is called at a type, however often.
//! `build/check_sources.py` compares the docs with these files.
#![tactic(auto)]

#[cfg(test)]
mod tests;
