//! Why no plan was made.
use plantext::Wrong;
use std::alloc::{AllocError, Global};
use thiserror::Error;

/// What `mkplan` prints where it makes no plan.
#[derive(Debug, Drop, Error)]
pub enum Trouble {
    #[error("mkplan: write mkplan TEXT PLAN")]
    Use,
    #[error("{0}: cannot be read")]
    NotRead(String),
    #[error("{0}: cannot be written")]
    NotWritten(String),
    #[error("{0}:{1}")]
    InText(String, Wrong),
    #[error("mkplan: the bytes are no plan; nothing was written")]
    NoPlan,
    #[error("mkplan: no memory is left; run it where there is more")]
    Heap(#[from(alloc)] AllocError),
}

impl Trouble {
    /// Something is wrong in this text.
    pub fn in_text(heap: Global, text: &str, wrong: Wrong) -> Result<Trouble, Trouble> {
        Ok(Trouble::InText(String::from_str(heap, text)?, wrong))
    }
}
