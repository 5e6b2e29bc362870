//! The same promises at the real core, RV32I, and worked cases that its programs show.
ghost use Rattle.std.specs.Prelude.{[], ◌∷◌};
ghost use Rattle.cpu.specs.Core.{Core};
ghost use Rattle.cpu.specs.Rv32i.{rv32i};
ghost use Rattle.model.specs.Promise.{TickSeparates, Separates, BackIsNeeded, ShowsInOwnTicks, ChangesInOwnTicks, ChannelsFit};
ghost use Rattle.model.specs.Promise.{MemoriesKeepLength, RunSeparates, StoresWithin, FirstReady, WholeIsSame};
ghost use Rattle.model.specs.Samples.{sharing, TurnsAre, turn_table, RoundForEver, late_twice, SenderShows};

// Each of these stays beside the one over every core: it is what an office signs, at the core that runs, and its check can
// be asked for by name. No code calls either.

/// From any state on: worlds that agree on a closed set of partitions agree on it after a tick, whatever the others are.
pub fn tick_separates() -> u8
    ensures { TickSeparates rv32i }
{
    0
}

/// The same over many ticks.
pub fn run_separates() -> u8
    ensures { RunSeparates rv32i }
{
    0
}

/// Over a whole run from the beginning: each partition of a closed set is the same, whatever the others are.
pub fn separates() -> u8
    ensures { Separates rv32i }
{
    0
}

/// A set into which nothing comes is not enough: through a channel with places, something comes back to the sender.
pub fn back_is_needed() -> u8
    ensures { BackIsNeeded rv32i }
{
    0
}

/// What a partition shows it shows in its own ticks.
pub fn shows_in_own_ticks() -> u8
    ensures { ShowsInOwnTicks rv32i }
{
    0
}

/// A partition's memory, tasks and shown bytes change in its own ticks only.
pub fn changes_in_own_ticks() -> u8
    ensures { ChangesInOwnTicks rv32i }
{
    0
}

/// RV32I stores in memory only, and so each partition's memory keeps its length.
pub fn memories_keep_length() -> u8
    ensures { (StoresWithin rv32i) × (MemoriesKeepLength rv32i) }
{
    0
}

/// No channel holds more messages than it has places, or one if it has none, and none longer than it allows.
pub fn channels_fit() -> u8
    ensures { ChannelsFit rv32i }
{
    0
}

/// The task that goes first is ready, has the highest priority, and is the first of equals.
pub fn first_ready() -> u8
    ensures { FirstReady Core }
{
    0
}

/// The tick written over the whole world is the tick in local form.
pub fn whole_is_same() -> u8
    ensures { WholeIsSame rv32i }
{
    0
}

/// Whose each tick is, with 16 ticks of the system's at the beginning of each window, and windows of 100 and 50 ticks.
pub fn turns_are() -> u8
    ensures { TurnsAre (sharing 16 100 50 [] []) turn_table }
{
    0
}

/// A task that goes round for ever, with a period of 200 ticks, a deadline of 30, and one time that it may be late: it is
/// late in ticks 30 and 230, and is then stopped.
pub fn round_for_ever() -> u8
    ensures { RoundForEver rv32i 200 30 1 late_twice }
{
    0
}

/// Through a channel with one place, the sender's second message is refused where the first was not taken: it shows 255,
/// and 0 where it was.
pub fn one_place_tells() -> u8
    ensures { SenderShows rv32i 1 ((20, 0) ∷ (170, 0) ∷ []) ((20, 0) ∷ (170, 255) ∷ []) }
{
    0
}

/// Through a channel without places it shows the same.
pub fn no_places_tell_nothing() -> u8
    ensures { SenderShows rv32i 0 ((20, 0) ∷ (170, 0) ∷ []) ((20, 0) ∷ (170, 0) ∷ []) }
{
    0
}
