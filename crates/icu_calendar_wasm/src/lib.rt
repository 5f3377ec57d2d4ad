//! The calls on dates for a WebAssembly module: those calls of `icu_calendar_c` that JavaScript uses.
//!
//! `bindings/web/build.sh` builds the module, and `bindings/web/icu_calendar.mjs` wraps it in functions and classes of
//! JavaScript.
#![tactic(auto)]

mod exports;
mod line;
