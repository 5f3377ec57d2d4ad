//! Tests of recurrence sets by their public calls, and a caller with what it can promise.
//!
//! Contracts are proved in their own crate. The expected days follow from the periods by counting.
#![tactic(auto)]

pub mod callers;
pub mod hundreds;
#[cfg(test)]
mod tests;
