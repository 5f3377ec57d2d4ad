//! The lines of the input of `calspan`: comments and empty lines, requests, and rows of tables.
//!
//! Start with [`read_line`]. A request line has two dates by their fields, two calendars and a unit. A row line has a
//! year of a table or an era. Each line is read word after word, and [`laws`] has the proof that its form is the only
//! one.
#![tactic(auto)]

mod bag;
mod era_row;
pub mod laws;
mod line;
mod plain_words;
mod reading;
mod request;
mod row;
mod words;

pub use bag::read_field;
pub use era_row::{EraRow, RowDate};
pub use line::{Line, LineKind, RequestLine, is_silent, line_kind, read_line};
pub use request::{Header, Request, read_request};
pub use row::{Row, RowKind, YearRow, read_row};
pub use words::Words;
