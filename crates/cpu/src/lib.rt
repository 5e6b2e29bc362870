//! What one instruction does.
//!
//! Owns the registers of a core and the meaning of each instruction. Knows nothing of where memory is: it says what to
//! load or store, and finishes a load with the bytes that it is given.
//! Promises: what a word's instruction does is what the manual says of it, over the integers where it is about signed
//! numbers, and an access lies in memory. Headline: `Registers::step`, clause `value`.
#![tactic(auto)]

pub mod access;
pub mod call;
pub mod effect;
pub mod execute;
mod operation;
pub mod registers;
