//! What an instruction does, for others to perform.
use decode::instruction::{LoadKind, StoreKind};
use decode::reg::Reg;

/// What an instruction does to registers and memory. An access lies in memory, at a multiple of its size. After a load, a
/// store or a call the task goes on by 4.
#[derive(Clone, Copy, PartialEq, Eq, Debug)]
pub enum Effect {
    /// Register rd gets the value, and the task goes on at `next`.
    Sets {
        rd: Reg,
        value: u32,
        next: u32,
    },
    /// The task goes on at `next`.
    Goes {
        next: u32,
    },
    /// Register rd gets what is in memory at the address.
    Loads {
        rd: Reg,
        kind: LoadKind,
        address: u32,
    },
    /// Memory at the address gets the low bytes of the value.
    Stores {
        kind: StoreKind,
        address: u32,
        value: u32,
    },
    /// The system is called.
    Calls,
    /// Nothing that an instruction may do: the task stops, and nothing else changes.
    Wrong,
}
