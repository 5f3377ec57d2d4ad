//! The command `explain`: the first bad word of each malformed line, and the first invalid field of each record of a book.

pub(crate) mod lines;
pub(crate) mod records;
pub(crate) mod serving;
