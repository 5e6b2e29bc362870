//! The worked plans: windows of 100 ticks for partition 0 and 50 for partition 1, of which the first 16 are the system's;
//! a page of memory each; two channels from 0 to 1 for messages of up to 4 bytes, of which channel 0 has no places and
//! channel 1 has one. A program is a row of words from address 0 on; data lies from address 64 on.
use anyhow::anyhow;
use model::plan::{Arrival, Channel, Task, Window};
use reference::part::Partition;
use reference::queue::Queue;
use reference::shown::Shown;
use reference::world::World;
use std::alloc::Global;

/// What a worked plan has of its own.
pub struct Case {
    pub name: &'static str,
    /// The program and the data of partition 0, and its tasks.
    first: &'static [u32],
    data: &'static [u8],
    tasks: &'static [Task],
    /// The program of partition 1.
    second: &'static [u32],
}

const WINDOWS: [Window; 2] = [
    Window {
        partition: 0,
        ticks: 100,
    },
    Window {
        partition: 1,
        ticks: 50,
    },
];

const ONE_TASK: [Task; 1] = [Task {
    priority: 0,
    period: 200,
    deadline: 200,
    lates: 0,
}];

const SECOND_TASK: [Task; 1] = [Task {
    priority: 0,
    period: 150,
    deadline: 150,
    lates: 0,
}];

const ECALL: u32 = 0x0000_0073;

// li a7, n: the call's number
const SHOW: u32 = 0x0000_0893;

const WAIT: u32 = 0x0010_0893;

const CLOCK: u32 = 0x0020_0893;

const SEND: u32 = 0x0030_0893;

const TAKE: u32 = 0x0040_0893;

// li a0, 1; li a1, 64; li a1, 65; li a2, 1; lbu a0, 64(zero)
const CHANNEL_1: u32 = 0x0010_0513;

const FROM_64: u32 = 0x0400_0593;

const FROM_65: u32 = 0x0410_0593;

const ONE_BYTE: u32 = 0x0010_0613;

const BYTE_AT_64: u32 = 0x0400_4503;

/// Partition 0 shows the time, in each of its periods.
const SHOWS_CLOCK: Case = Case {
    name: "clock",
    first: &[CLOCK, ECALL, SHOW, ECALL, WAIT, ECALL],
    data: &[],
    tasks: &ONE_TASK,
    second: &[],
};

/// Partition 0 sends 7 into channel 0; partition 1 takes it, and shows how many ticks ago it was sent.
const KEEPS_LAST: Case = Case {
    name: "last",
    first: &[FROM_64, ONE_BYTE, SEND, ECALL, WAIT, ECALL],
    data: &[7],
    tasks: &ONE_TASK,
    second: &[TAKE, ECALL, SHOW, ECALL, WAIT, ECALL],
};

/// Two tasks in partition 0 show their numbers; the second has the higher priority.
const GOES_FIRST: Case = Case {
    name: "first",
    first: &[ECALL, WAIT, ECALL],
    data: &[],
    tasks: &[
        Task {
            priority: 1,
            period: 200,
            deadline: 200,
            lates: 0,
        },
        Task {
            priority: 2,
            period: 200,
            deadline: 200,
            lates: 0,
        },
    ],
    second: &[],
};

/// Partition 0 sends 1 and 2 into channel 1, which has one place, and shows the answers; partition 1 takes twice, and shows
/// the answers and the byte that came.
const HAS_ONE_PLACE: Case = Case {
    name: "queue",
    first: &[
        CHANNEL_1, FROM_64, ONE_BYTE, SEND, ECALL, SHOW, ECALL, CHANNEL_1, FROM_65, SEND, ECALL,
        SHOW, ECALL, WAIT, ECALL,
    ],
    data: &[1, 2],
    tasks: &ONE_TASK,
    second: &[
        CHANNEL_1, FROM_64, TAKE, ECALL, SHOW, ECALL, BYTE_AT_64, ECALL, CHANNEL_1, TAKE, ECALL,
        SHOW, ECALL, WAIT, ECALL,
    ],
};

/// The worked plans, in the order in which they are run.
pub const CASES: [Case; 4] = [SHOWS_CLOCK, KEEPS_LAST, GOES_FIRST, HAS_ONE_PLACE];

/// Writes words into memory from an address on, as far as it goes.
fn put_words(memory: &mut [u8], address: usize, words: &[u32]) {
    if address <= memory.len() {
        for (place, word) in memory[address..].chunks_exact_mut(4).zip(words) {
            octets::write(place, 0, *word);
        }
    }
}

/// Writes bytes into memory from an address on, if all fit.
fn put_data(memory: &mut [u8], address: usize, data: &[u8]) {
    if address <= memory.len() && data.len() <= memory.len() - address {
        octets::copy(memory, address, data);
    }
}

/// Both memories, one after the other.
fn fill(memory: &mut [u8], case: &Case) {
    put_words(memory, 0, case.first);
    put_data(memory, 64, case.data);
    put_words(memory, 4096, case.second);
}

/// A partition with these tasks; those behind the sixteenth are left out.
fn partition(tasks: &[Task]) -> Partition {
    let mut part = Partition::new();
    for t in tasks {
        let _ = part.add(*t);
    }
    part
}

/// How long a worked plan is run.
const TICKS: usize = 400;

/// An empty channel from partition 0 to partition 1 with so many places.
fn channel(places: u8) -> anyhow::Result<Queue> {
    let plan = Channel {
        from: 0,
        to: 1,
        bytes: 4,
        places,
    };
    Queue::new(plan).ok_or_else(|| anyhow!("a channel is out of bounds"))
}

/// Runs a worked plan: what was shown, in the order of the ticks.
pub fn run(heap: Global, case: &Case) -> anyhow::Result<Vec<Shown>> {
    let mut channels = [channel(0)?, channel(1)?];
    let mut parts = [partition(case.tasks), partition(&SECOND_TASK)];
    let mut memory = [0u8; 8192];
    fill(&mut memory, case);
    let pages = [1, 1];
    let mut world = World::start(16, &WINDOWS, &mut parts, &pages, &mut memory, &mut channels);
    let none: [&[Arrival]; TICKS] = [&[]; TICKS];
    let mut shown: [Option<Shown>; TICKS] = [None; TICKS];
    world
        .run(&none, &mut shown)
        .map_err(|_| anyhow!("the time is over"))?;
    Ok(shown.iter().copied().flatten().collect(heap)?)
}
