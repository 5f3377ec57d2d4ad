//! The command `span`: the answers to request lines.

pub(crate) mod answers;
pub(crate) mod replies;
pub(crate) mod serving;
