//! Tests of the Gregorian calendars, the Julian, the Persian and the Ethiopian calendar by their public calls.
//!
//! What a contract says is proved where it stands; here are values that come from outside.
#![tactic(auto)]

#[cfg(test)]
mod tests;
