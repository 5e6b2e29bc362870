//! The tasks of a partition, and the bytes from outside that it has not heard, each in one lent frame.
//!
//! Owns the task table, of sixteen records (`record` reads one, `record_mut` changes it), and the ring of unheard bytes
//! (`ring`). Every content of a frame stands for some tasks, and for some unheard bytes: nothing is assumed of them.
//! Promises that each function does to one task, as the bytes tell it, what the abstract computer does to it, and leaves
//! the other tasks and all plans as they are. Knows nothing of memory, of windows, of other partitions, nor of which task
//! goes first. Headline: `RecordMut::look`, clause `run`.
#![tactic(auto)]

mod code;
pub mod record;
pub mod record_mut;
pub mod ring;
