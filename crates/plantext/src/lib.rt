//! The text of a plan, as docs/PLAN-TEXT.md has it: from its lines to a typed plan, or to the first fault in them.
#![tactic(auto)]

mod faults;
mod lines;
mod names;
mod numbers;
mod plans;
mod reading;
mod words;

pub use faults::{Fault, FileFault, Wrong};
pub use lines::fitting;
pub use names::{Name, Named, find, is_name};
pub use numbers::{NumberError, number, number_within};
pub use plans::{Memory, Partition, Plan};
pub use reading::{Outcome, read};
