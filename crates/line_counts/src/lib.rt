//! A source that counts the line feeds among the first bytes that are read through it.
//!
//! Start with [`CountedSource`]. It counts as far as a [`Reader`](byte_io::Reader) looks at a source: to [`LIMIT`] bytes.
#![tactic(auto)]

mod count;
mod counting;
mod source;

pub use count::LineCount;
pub use source::CountedSource;
