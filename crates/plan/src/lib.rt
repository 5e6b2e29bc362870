//! Plans, and rows of bytes from outside, as bytes.
//!
//! Owns the format: `specs/Layout` says what a plan's bytes are, front to back, and `specs/Rows` a row's; `specs/Bounds` says
//! which plans are in bounds, and `specs/Refusals` gives each `Refusal` its number and its place. The code:
//!
//! - `check` says of any bytes whether they are a plan, and else which refusal comes first, front to back;
//! - `View` reads a checked plan where it lies: windows, channels, tasks, pages and memories;
//! - `Draft` says how many bytes a plan needs, and writes them, or nothing;
//! - `row_end` and `Row` do for one tick's row what `check` and `View` do for a plan.
//!
//! Promises that exactly the bytes of plans in bounds are taken, and each as the one plan whose bytes they are; that all
//! other bytes get the refusal that the layout's reading gives; that what is written is read as it, and what is read has, written
//! anew, the same bytes. Uses no heap, and changes nothing that it is lent but what a draft is written to. Does not know what
//! a plan means when it runs, nor which plans a system can already carry out. Headline: `check`, clauses `value` and `exact`.
#![tactic(auto)]

pub mod check;
pub mod draft;
pub mod extent;
pub mod head;
mod part;
mod reader;
mod record;
pub mod refusal;
pub mod row;
pub mod rows;
pub mod view;
mod write;

ghost use Rattle.plan.specs.Promise.{ReadsAll, WritesBack, DraftsAll};

/// Every plan in bounds, with its memories, is read from the bytes that are written for it; what is read from bytes is in
/// bounds, and its bytes are these; and every plan in bounds can be handed over to be written.
pub fn round_trips_stand() -> u8
    ensures reads { ReadsAll }
    ensures writes { WritesBack }
    ensures drafts { DraftsAll }
{
    0
}
