//! The control frames of a partition's block, behind its page tables.

/// The task table.
pub(crate) const TABLE: usize = 2;

/// The bytes from outside that are unheard.
pub(crate) const UNHEARD: usize = 3;

/// The number of tasks, in the first byte.
pub(crate) const COUNT: usize = 4;
