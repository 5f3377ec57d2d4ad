//! A reader of lines of up to 65536 bytes, from any source and of any number of bytes.
//!
//! A [`LineReader`] holds one chunk of a source's bytes and looks for the next LF in it. A [`LongLine`] holds the first
//! 65536 bytes of the current line, and whether the line has more. Memory is allocated once, for the line.
#![tactic(auto)]

mod buffer;
mod reader;

pub use buffer::LongLine;
pub use reader::LineReader;
