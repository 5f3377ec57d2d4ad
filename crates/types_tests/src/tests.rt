//! Known days and years, texts that are read and written, and defaults.

mod algorithms;
mod bags;
mod derived;
mod durations;
mod easter;
mod errors;
mod expected;
mod hebrew_years;
mod kinds;
mod listed_years;
mod months;
mod ranges;
mod rule_years;
mod texts;
mod weeks;
mod windows;
mod years;
