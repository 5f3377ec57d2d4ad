//! Tests of recurrence rules by their public calls.
//!
//! Contracts are proved in their own crate. The expected rules and errors come from other sources.
#![tactic(auto)]

#[cfg(test)]
mod tests;
