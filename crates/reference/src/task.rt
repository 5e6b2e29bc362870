//! A task under way, with its plan.
ghost use Rattle.std.specs.Prelude.{◌+◌, ◌≤◌};
ghost use Rattle.reference.specs.Spare.{spare};

use cpu::registers::Registers;
use model::plan::{State, Task};

mod methods;

/// How far a task is: its state, its core, when it last began, and how often it has been late since it last waited.
#[derive(Clone, Copy)]
pub(crate) struct Progress {
    state: State,
    core: Registers,
    began: u64,
    late: u16,
    ghost few: { late ≤ 255 + spare state },
}

#[derive(Clone, Copy)]
pub(crate) struct Running {
    pub(crate) plan: Task,
    pub(crate) progress: Progress,
}
