//! Tests of the arithmetic of dates and of what every calendar offers, by their public calls: over a small calendar,
//! and in ISO.
//!
//! What a contract says is proved where it stands; here are values that come from outside, and counted look-ups.
#![tactic(auto)]

pub mod alternating_months;
#[cfg(test)]
mod tests;
