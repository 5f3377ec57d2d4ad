//! The command `holidays`: the days that the rules of a book name.

pub(crate) mod book_lines;
pub(crate) mod book_rows;
pub(crate) mod listing;
