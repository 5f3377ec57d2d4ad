//! Calls from C: conversion, fields, sums and differences of dates, lists of days, and the program as a call.
//!
//! `bindings/c/include/icu_calendar.h` declares every call. A calendar is a code, a date is a day number, and the parts
//! of a date come in a plain struct. The calls keep nothing between them, and the caller frees nothing. They check
//! every argument and return a code.
#![tactic(auto)]

mod exports;
mod holiday_exports;
mod kept;
mod more_exports;
mod program;
#[cfg(test)]
mod tests;
