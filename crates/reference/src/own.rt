//! A partition's own tick, over what the partition is lent.
ghost use Rattle.std.specs.Prelude.{◌≡◌, true, Some};
ghost use Rattle.std.specs.List.{slice_get};
ghost use Rattle.cpu.specs.Rv32i.{rv32i};
ghost use Rattle.model.specs.Tick.{part_tick};
ghost use Rattle.reference.specs.Parts.{tasks_of, part_of};
ghost use Rattle.reference.specs.Own.{Did, seen_of};

use crate::part::Partition;
use crate::queue::Queue;
use crate::task::Progress;

mod methods;

/// A partition's own tick: what partition q is lent in it, and its task that goes, which is task i.
#[derive(Drop)]
pub(crate) struct OwnTick<'a> {
    part: &'a mut Partition,
    memory: &'a mut [u8],
    channels: &'a mut [Queue],
    q: u8,
    time: u64,
    i: usize,
    run: Progress,
}

/// The tick of partition q: its tasks are looked at, and the one that goes first, if there is one, does an instruction.
/// What comes back is the byte that is shown, if one is.
pub(crate) fn own_tick(
    part: &mut Partition,
    memory: &mut [u8],
    channels: &mut [Queue],
    q: u8,
    time: u64,
) -> Option<u8>
    ensures value { Did (λ s. part_tick rv32i q time (seen_of channels.old q) (tasks_of part.old) (part_of part.old memory.old s)) time part.new memory.new channels.old channels.new result }
    ensures tasks { tasks_of part.new ≡ tasks_of part.old }
{
    part.look(time);
    // Stays `let .. else`: so the project writes the task that goes first.
    let Some(i) = part.first_ready() else {
        return None;
    };
    let run = part.progress(i);
    let mut tick = OwnTick {
        part,
        memory,
        channels,
        q,
        time,
        i,
        run,
    };
    tick.instruction()
}
