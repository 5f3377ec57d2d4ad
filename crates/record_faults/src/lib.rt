//! The first invalid field of a record of a book, and what may stand there.
//!
//! Start with [`record_fault`]. `cal_holidays` describes books and their records. [`laws`] has the proof that there is a
//! fault exactly if the record is invalid, that valid records begin with the fields before it, that none begins with
//! the invalid field behind them, and that some begin with another text in its place exactly if it may stand there.
#![tactic(auto)]

mod expected;
mod faults;
pub mod laws;

pub use expected::FieldExpected;
pub use faults::{RecordFault, field_text, record_fault};
