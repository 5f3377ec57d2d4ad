//! The command `gen`: generated requests, and the line of counts and sums over their answers.

pub(crate) mod generating;
pub(crate) mod generator;
pub(crate) mod totals;
