//! The abstract computer: what a plan is, what a partition, its tasks and the channels are, and what one tick does. No
//! frames, page tables, ready lists or timers are in it, and no code runs it.
//!
//! It owns the definitions of `specs/`: `World` (what there is), `Tick` (a tick, where a partition's own tick is a function
//! of what the partition may see), `Whole` (the same tick, written over the whole world), `Promise` (what is promised) and
//! `Samples` (worked cases). Its Rust types are what a plan and a row of arrivals are made of.
//!
//! It promises, over every kind of core (`promises`) and again at RV32I (`rv32i`), one statement for each function:
//!
//! - the headline: a set of partitions into which no channel comes from outside, and from which none with places goes
//!   out, is the same after every run, whatever the others' number, programs, tasks, windows, channels and arrivals are;
//! - what a partition has, but for its unheard bytes, changes in its own ticks only, and what it shows it shows in them;
//! - a partition's memory keeps its length;
//! - a channel never holds more, or longer, messages than its plan allows;
//! - whose tick it is, by round, window and tick of the window;
//! - the task that goes first is ready, has the highest priority, and is the first of equals;
//! - both forms of the tick are the same.
//!
//! It does not know a plan's bytes, nor how memory lies in frames, nor how any of this is computed: the crates above are
//! proved to do what is said here. Nor does it say which plans are proper: its promises hold of every plan.
#![tactic(auto)]

pub mod plan;
pub mod promises;
pub mod rv32i;
