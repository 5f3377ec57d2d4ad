//! Tests of the published years by first days of years and months that come from outside, also as anniversaries and as
//! occurrences of a rule.
#![tactic(auto)]

#[cfg(test)]
mod tests;
