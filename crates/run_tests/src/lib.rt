//! Tests of sources, sinks and lines, of what words spell, of the texts that are written and of whole runs over sources
//! and sinks in memory, by their public calls.
//!
//! What a contract says is proved where it stands; here are values that come from outside.
#![tactic(auto)]

#[cfg(test)]
mod tests;
