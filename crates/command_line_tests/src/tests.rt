//! Command lines with their first bad word.

mod arguments;
mod ends;
mod expected;
