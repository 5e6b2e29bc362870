//! The memory of a partition.
ghost use Rattle.std.specs.Prelude.{◌≡◌, ◌*◌, ◌≤◌, IfOk, vec_len};

use model::plan::Task;
use std::alloc::AllocError;

/// What a partition's memory holds, which is so many pages.
#[derive(Drop)]
pub struct Memory {
    pub bytes: Vec<u8>,
    pub pages: u16,
    ghost whole: { vec_len bytes ≡ pages * 4096 },
}

/// A memory of so many pages: the program from address 0 on, and zeros behind it.
pub fn filled(mut program: Vec<u8>, pages: u16) -> Result<Memory, AllocError>
    requires fits { vec_len program ≤ pages * 4096 }
    ensures pages { IfOk result (λ m. m.pages ≡ pages) }
{
    program.resize(usize::from(pages) * 4096, 0)?;
    Ok(Memory {
        bytes: program,
        pages,
    })
}

/// A partition with its memory.
#[derive(Drop)]
pub struct Loaded {
    pub tasks: Vec<Task>,
    pub memory: Memory,
}
