//! What is promised of the abstract computer, over every kind of core: each function's contract is one statement, and
//! its proof is the proof of that statement.
ghost use Rattle.cpu.specs.Act.{Machine};
ghost use Rattle.model.specs.Promise.{Closed, NoneInto, TickSeparates, SeparatesUnder, ShowsInOwnTicks, ChangesInOwnTicks, ChannelsFit};
ghost use Rattle.model.specs.Promise.{MemoriesKeepLength, RunSeparates, TurnsByWindow, FirstReady, WholeIsSame};

/// From any state on: worlds that agree on a closed set of partitions agree on it after a tick, whatever the others are.
pub fn tick_separates_stands<C>() -> u8
    ensures { (M : Machine C) → TickSeparates M }
{
    0
}

/// The same over many ticks.
pub fn run_separates_stands<C>() -> u8
    ensures { (M : Machine C) → RunSeparates M }
{
    0
}

/// Over a whole run from the beginning: each partition of a closed set is the same, whatever the others are.
pub fn separates_stands<C>() -> u8
    ensures { (M : Machine C) → SeparatesUnder M Closed }
{
    0
}

/// What a partition shows it shows in its own ticks.
pub fn shows_in_own_ticks_stands<C>() -> u8
    ensures { (M : Machine C) → ShowsInOwnTicks M }
{
    0
}

/// A partition's memory, tasks and shown bytes change in its own ticks only.
pub fn changes_in_own_ticks_stands<C>() -> u8
    ensures { (M : Machine C) → ChangesInOwnTicks M }
{
    0
}

/// A partition's memory keeps its length, on a core that stores in memory only.
pub fn memories_keep_length_stands<C>() -> u8
    ensures { (M : Machine C) → MemoriesKeepLength M }
{
    0
}

/// No channel holds more messages than it has places, or one if it has none, and none longer than it allows.
pub fn channels_fit_stands<C>() -> u8
    ensures { (M : Machine C) → ChannelsFit M }
{
    0
}

/// Whose tick it is, by round, window and tick of the window.
pub fn turns_by_window_stands() -> u8
    ensures { TurnsByWindow }
{
    0
}

/// The task that goes first is ready, has the highest priority, and is the first of equals.
pub fn first_ready_stands<C>() -> u8
    ensures { FirstReady C }
{
    0
}

/// The tick written over the whole world is the tick in local form.
pub fn whole_is_same_stands<C>() -> u8
    ensures { (M : Machine C) → WholeIsSame M }
{
    0
}
