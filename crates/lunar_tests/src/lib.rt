//! Tests of the Hijri, Chinese and Korean calendars by their public calls, with rules as a caller may write them.
//!
//! What a contract says is proved where it stands; here are values that come from outside.
#![tactic(auto)]

pub mod late_rules;
pub mod mean_rules;
#[cfg(test)]
mod tests;
