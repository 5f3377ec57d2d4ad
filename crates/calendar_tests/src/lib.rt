//! Tests of `icu_calendar` by its public calls: constructors, and bags of fields of all kinds, in each calendar.
//!
//! What a contract says is proved where it stands; here are values that come from outside.
#![tactic(auto)]

#[cfg(test)]
mod tests;
