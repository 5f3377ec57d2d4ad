//! Known days and years, tables that are refused, and calendars over rules of a caller.

mod counted_years;
mod derived;
mod east_asian;
mod expected;
mod hijri;
mod lengthening;
mod packed;
