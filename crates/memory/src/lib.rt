//! The memory of a partition, behind page tables of two levels.
//!
//! Owns the root and the leaf table in the first two frames of a partition's block; knows nothing of tasks, windows or
//! other partitions: it is lent one block. Promises: a fetch, a load or a store does to the block what it does to the plain
//! memory, an address that has no entry is outside memory, and the control frames stay as they are, but for one that is
//! lent on to be written. Headline: `BlockMut::store`, clauses `memory` and `control`.
#![tactic(auto)]

pub mod block;
pub mod block_mut;
pub mod tables;
