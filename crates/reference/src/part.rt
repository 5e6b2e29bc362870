//! A partition under way: its tasks, and the bytes from outside that it has not heard. Its memory is lent apart.
use crate::kept::Kept;
use crate::task::Running;
use arrayvec::ArrayVec;

mod methods;

// Tasks and bytes lie in the partition itself: no heap on the kernel's side.
#[derive(Drop)]
pub struct Partition {
    tasks: ArrayVec<Running, 16>,
    heard: Kept<u8, 1024>,
}

/// Why a task is not added: there are sixteen.
#[derive(Clone, Copy, Debug, PartialEq, Eq)]
pub struct Full;
