//! Tests of dates by their public calls: conversions, getters, comparisons, texts and weeks.
//!
//! What a contract says is proved where it stands; here are values that come from outside.
#![tactic(auto)]

#[cfg(test)]
mod tests;
