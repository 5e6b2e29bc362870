//! A partition's own block, and its own ticks.
#![tactic(auto)]

mod burst;
mod came;
mod frames;
pub mod own;
pub mod shown;
mod step;
pub mod stretch;
mod task;
