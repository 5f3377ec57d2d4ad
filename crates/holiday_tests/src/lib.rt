//! Tests of `cal_holidays`: valid books, invalid records, and known lists.
#![tactic(auto)]

pub mod equality;
#[cfg(test)]
mod tests;
