//! The values of single words: numbers, and months by their code.
#![tactic(auto)]

mod months;
mod numbers;

pub use months::read_month_code;
pub use numbers::{leading_digits, read_byte, read_int, read_number};
