//! The model as a program: plain and flat, with no page tables or ready lists, for runs beside the system.
//!
//! Owns a computer over lent memory: windows, tasks, bytes unheard, channels, and the memories one after the other in one
//! row of bytes. Promises: it begins, ticks and runs as the model does at the RV32I core, for every plan that its types can
//! hold, every state and every row of bytes from outside; a refusal changes nothing. Knows nothing of files and plans in
//! bytes. Headline: `World::run`, clause `value`.
#![tactic(auto)]

mod access;
mod kept;
mod letter;
mod own;
pub mod part;
mod place;
pub mod queue;
pub mod shown;
mod task;
mod turn;
pub mod world;
