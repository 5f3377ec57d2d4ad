//! The first word of a line with which no request and no row goes on.
//!
//! Start with [`line_fault`]. It reads a line word after word, by the grammar of `request_lines`, and returns the place of
//! the first bad word with what may stand there. [`laws`] has the proof that there is a fault exactly if the line is
//! malformed, that the words before it begin a request or a row, and that no request or row begins with the bad word
//! after them.
#![tactic(auto)]

mod expected;
mod faults;
pub mod laws;
mod steps;

pub use expected::Expected;
pub use faults::{LineFault, line_fault, word_after};
