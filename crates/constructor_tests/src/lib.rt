//! Tests of the constructors of each calendar, and of dates of any calendar, by their public calls.
//!
//! What a contract says is proved where it stands; here are values that come from outside.
#![tactic(auto)]

#[cfg(test)]
mod tests;
