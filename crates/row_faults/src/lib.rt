//! The faults of lines that also depend on the lines before them, and on a row's numbers.
//!
//! Start with [`fault_behind`], which adds these faults to the malformed words of `line_faults`: a row line that comes too
//! late, a second era, and the first number with which a row has no year. [`row_fault`] judges one row. [`laws`] has the
//! proof that a row line has a fault exactly if the rows of `table_rows` reject it.
#![tactic(auto)]

mod allowed;
mod faults;
pub mod laws;
mod numbers;
mod stages;

pub use allowed::Allowed;
pub use faults::{Fault, fault_behind};
pub use numbers::row_fault;
pub use stages::Stage;
