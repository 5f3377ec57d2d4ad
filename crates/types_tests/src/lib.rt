//! Tests of the day numbers, the plain types and the lists of years by their public calls.
//!
//! What a contract says is proved where it stands; here are values that come from outside, and printed texts.
#![tactic(auto)]

#[cfg(test)]
mod tests;
