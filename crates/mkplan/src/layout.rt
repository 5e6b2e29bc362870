//! A plan as bytes, by the writer of the library `plan`.
ghost use Rattle.std.specs.Prelude.{◌≡◌, true, map, length, IfOk, vec_len};
ghost use Rattle.plan.specs.Taken.{accepts};
ghost use Rattle.plan.specs.Drafts.{given};
ghost use Rattle.mkplan.specs.Handed.{handed};

use crate::memories::Loaded;
use crate::troubles::Trouble;
use model::plan::Channel;
use plan::check::check;
use plan::draft::{Draft, DraftPart};
use plantext::Plan;
use std::alloc::{AllocError, Global};

impl Loaded {
    /// The partition as it is handed over.
    fn part(&self) -> DraftPart<'_>
        ensures { given result ≡ handed self.now }
    {
        DraftPart {
            tasks: self.tasks.as_slice(),
            memory: self.memory.bytes.as_slice(),
        }
    }
}

/// The partitions as they are handed over: the tasks of each, and its memory.
fn parts_of<'a>(heap: Global, partitions: &'a [Loaded]) -> Result<Vec<DraftPart<'a>>, AllocError>
    ensures len { IfOk result (λ v. vec_len v ≡ length partitions.now) }
    ensures each { IfOk result (λ v. map given v.items ≡ map handed partitions.now) }
{
    let mut parts = Vec::new(heap);
    // Stays a loop: of structs that hold loans a chain's proof says how many there are, and not what they lend.
    for loaded in partitions {
        parts.push(loaded.part())?;
    }
    Ok(parts)
}

/// The bytes of a draft, which are a plan's.
fn written(heap: Global, draft: &Draft) -> Result<Vec<u8>, Trouble>
    ensures plan { IfOk result (λ v. accepts v.items ≡ true) }
{
    let size = draft.size().ok_or(Trouble::NoPlan)?;
    let mut out = vec![in heap; 0; size]?;
    draft
        .write(out.as_mut_slice())
        .map_err(|_| Trouble::NoPlan)?;
    check(out.as_slice()).map_err(|_| Trouble::NoPlan)?;
    Ok(out)
}

/// The bytes of a plan with these partitions.
pub fn plan_bytes(heap: Global, plan: &Plan, partitions: &[Loaded]) -> Result<Vec<u8>, Trouble>
    requires each { vec_len plan.now.partitions ≡ length partitions.now }
    ensures plan { IfOk result (λ v. accepts v.items ≡ true) }
{
    let parts = parts_of(heap, partitions)?;
    let channels: Vec<Channel> = plan
        .channels
        .iter()
        .map(|channel| channel.item)
        .collect(heap)?;
    let draft = Draft {
        system: plan.system,
        windows: plan.windows.as_slice(),
        channels: channels.as_slice(),
        parts: parts.as_slice(),
    };
    written(heap, &draft)
}
