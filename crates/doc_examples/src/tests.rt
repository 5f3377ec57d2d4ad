//! The examples, as the docs have them.

mod counted;
mod east_asian;
mod hebrew;
mod hijri;
mod iso;
mod lists;
mod over_any;
mod rows;
mod rule_days;
mod rules;
mod run_time;
mod solar;
mod spans;
mod units;
