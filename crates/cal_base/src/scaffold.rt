//! The marker trait of the calendars in this workspace.

/// Marks a trait whose implementations are all in this workspace, so the trait may gain members.
pub trait UnstableSealed {}
