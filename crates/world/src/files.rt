//! A plan run to its end.
use crate::laid::Laid;
use model::plan::Arrival;
use plan::check::check;
use plan::refusal::Refusal;
use plan::row::Row;
use plan::rows::row_end;
use plan::view::View;
use reference::shown::Shown;
use std::alloc::{AllocError, AllocFailed, Global};

/// Why a run ends before all was done.
#[derive(Drop)]
pub(crate) enum Ended {
    /// The plan, or a row, is refused.
    Refused(Refusal),
    Heap(AllocError),
}

impl From<Refusal> for Ended {
    fn from(refusal: Refusal) -> Ended {
        Ended::Refused(refusal)
    }
}

impl From<AllocError> for Ended {
    fn from(error: AllocError) -> Ended {
        Ended::Heap(error)
    }
}

impl<T: Drop> From<AllocFailed<T>> for Ended {
    fn from(failed: AllocFailed<T>) -> Ended {
        Ended::Heap(AllocError::from(failed))
    }
}

/// What comes from outside.
#[derive(Clone, Copy)]
pub(crate) enum Outside<'a> {
    /// Nothing, for so many ticks.
    Nothing(u64),
    /// A row of bytes for each tick, one behind the other; the next one begins at a place. (The place stands beside the bytes
    /// since a refusal's place is counted in all of them.)
    Rows(&'a [u8], usize),
}

impl Outside<'_> {
    /// At most so many ticks.
    fn most(&self) -> u64 {
        match *self {
            Outside::Nothing(ticks) => ticks,
            Outside::Rows(bytes, _) => bytes.len() as u64,
        }
    }

    fn is_over(&self) -> bool {
        matches!(*self, Outside::Rows(bytes, place) if place >= bytes.len())
    }

    /// Takes the row of a tick: what comes in it, in the order in which it comes.
    fn take(&mut self, partitions: u8, time: u64, row: &mut Vec<Arrival>) -> Result<(), Ended> {
        row.clear();
        if let Outside::Rows(bytes, place) = *self {
            let end = row_end(bytes, place, partitions, time)?;
            let coming = Row::new(bytes, place, partitions);
            row.extend((0..coming.len()).filter_map(|i| coming.arrival(i)))?;
            *self = Outside::Rows(bytes, end);
        }
        Ok(())
    }
}

/// Runs a plan with what comes from outside, and adds what is shown, in the order of the ticks. A row that is refused ends
/// the run.
pub(crate) fn run(
    heap: Global,
    plan: &[u8],
    mut outside: Outside<'_>,
    shown: &mut Vec<Shown>,
) -> Result<(), Ended> {
    check(plan)?;
    let view = View::new(plan);
    let mut laid = Laid::new(heap, &view)?;
    let mut world = laid.start();
    let mut row = Vec::new(heap);
    let partitions = view.partitions();
    for time in 0..outside.most() {
        if outside.is_over() {
            break;
        }
        outside.take(partitions, time, &mut row)?;
        let over = |_| Refusal::Row(time as usize);
        if let Some(b) = world.tick(row.as_slice()).map_err(over)? {
            shown.push(b)?;
        }
    }
    Ok(())
}
