//! A burst of instructions of one task, whose registers are at hand.
ghost use Rattle.std.specs.Prelude.{◌≡◌, ◌<◌};
ghost use Rattle.cpu.specs.Held.{core_of};
ghost use Rattle.partition.specs.Shown.{HasRoom};
ghost use Rattle.partition.specs.Steps.{Bursted};

use crate::came::{Burst, Came};
use crate::shown::Shown;
use crate::step::instruction;
use crate::stretch::Stretch;
use cpu::registers::Registers;
use memory::block_mut::BlockMut;
use model::plan::State;

// The block and the core stay two: the core goes back into the block only when the burst ends. The stretch and what is shown
// stay two: a struct of both would be made anew for each bout.

/// Instructions in these ticks at most, until the task waits or stops.
pub(crate) fn burst(
    b: &mut BlockMut<'_>,
    core: &mut Registers,
    stretch: Stretch,
    shown: &mut Shown<'_>,
) -> Burst
    requires room { HasRoom shown.old stretch.ticks }
    ensures bursted { Bursted b.old.bytes.now b.new.bytes.now (core_of core.old) (core_of core.new) shown.old shown.new stretch.from stretch.ticks result }
    ensures some { 0 < stretch.ticks → 0 < result.ticks }
    ensures bytes { b.new.bytes.ghost_name ≡ b.old.bytes.ghost_name }
{
    for k in 0..stretch.ticks {
        let time = stretch.from + k;
        match instruction(b, core, time) {
            Came::Goes => {}
            Came::Shows(byte) => shown.note(time, byte),
            Came::Waits => {
                return Burst {
                    ticks: k + 1,
                    end: State::Waiting,
                };
            }
            Came::Stops => {
                return Burst {
                    ticks: k + 1,
                    end: State::Stopped,
                };
            }
        }
    }
    Burst {
        ticks: stretch.ticks,
        end: State::Ready,
    }
}
