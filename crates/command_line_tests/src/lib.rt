//! Tests of the first bad word of a command line by the public calls of `command_line`.
//!
//! Contracts are proved in their own crate. The expected places come from the manual's forms of the commands.
#![tactic(auto)]

#[cfg(test)]
mod tests;
