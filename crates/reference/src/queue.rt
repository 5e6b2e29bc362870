//! A channel under way: its plan, and the messages in it.
ghost use Rattle.std.specs.Prelude.{◌≤◌};

use crate::kept::Kept;
use crate::letter::Letter;
use model::plan::Channel;

mod methods;

// Messages lie in the channel itself: no heap on the kernel's side.
#[derive(Drop)]
pub struct Queue {
    plan: Channel,
    messages: Kept<Letter, 64>,
    ghost small: { plan.bytes ≤ 1024 },
    ghost few: { plan.places ≤ 64 },
}
