//! Worked cases of the reference at the edges of deadlines, periods, unheard bytes and messages. Each says what must be
//! shown, worked out by hand from the rules, and is run.
#![tactic(auto)]

use model::plan::{Arrival, Channel, Task, Window};
use reference::part::Partition;
use reference::queue::Queue;
use reference::shown::Shown;
use reference::world::World;

/// 100 ticks for partition 0, and 50 for a partition that is not there.
const BY_TURNS: [Window; 2] = [
    Window {
        partition: 0,
        ticks: 100,
    },
    Window {
        partition: 1,
        ticks: 50,
    },
];

/// Partition 0 alone for very long.
const ALONE: [Window; 2] = [Window {
    partition: 0,
    ticks: 1_000_000,
}; 2];

// These words, and the writing of them, stand in the program `world` too, which lends none.

/// Writes a program into memory from its start on, as far as it goes.
fn put_words(memory: &mut [u8], words: &[u32]) {
    for (place, word) in memory.chunks_exact_mut(4).zip(words) {
        octets::write(place, 0, *word);
    }
}

/// Runs partition 0 with one task and a channel to itself for messages of up to 1,024 bytes with one place.
fn run(
    windows: &[Window],
    task: Task,
    words: &[u32],
    rows: &[&[Arrival]],
    shown: &mut [Option<Shown>],
) -> Option<()> {
    let queue = Queue::new(Channel {
        from: 0,
        to: 0,
        bytes: 1024,
        places: 1,
    })?;
    let mut part = Partition::new();
    let _ = part.add(task);
    let mut parts = [part];
    let mut channels = [queue];
    let mut memory = [0u8; 4096];
    put_words(&mut memory, words);
    let pages = [1];
    let mut world = World::start(16, windows, &mut parts, &pages, &mut memory, &mut channels);
    world.run(rows, shown).ok()
}

// `run` and `says` stay two calls in each case: of a function generic in the number of rows, which would have both and the places
// for what is shown, the cases that call it got no proof.

/// Whether just these bytes were shown, in these ticks.
fn says(shown: &[Option<Shown>], expected: &[(u64, u8)]) -> bool {
    let said = shown.iter().flatten().map(|s| (s.tick, s.byte));
    said.eq(expected.iter().copied())
}

// li a7, n; ecall; jal zero, 0
const SHOW: u32 = 0x0000_0893;

const WAIT: u32 = 0x0010_0893;

const SEND: u32 = 0x0030_0893;

const TAKE: u32 = 0x0040_0893;

const HEAR: u32 = 0x0050_0893;

const ECALL: u32 = 0x0000_0073;

const FOR_EVER: u32 = 0x0000_006f;

#[cfg(test)]
mod tests {
    use super::*;

    fn task(period: u32, deadline: u32, lates: u8) -> Task {
        Task {
            priority: 0,
            period,
            deadline,
            lates,
        }
    }

    // Shows 0 in its first tick, and then goes round for ever.
    const SHOWS_ONCE: [u32; 2] = [ECALL, FOR_EVER];

    // Shows 0, and waits.
    const SHOWS_AND_WAITS: [u32; 3] = [ECALL, WAIT, ECALL];

    #[test]
    fn deadline_equal_to_period(rt: HostRuntime) {
        let rows: [&[Arrival]; 600] = [&[]; 600];
        let mut shown: [Option<Shown>; 600] = [None; 600];
        // late in tick 200, and stopped then
        assert!(rt; run(&BY_TURNS, task(200, 200, 0), &SHOWS_ONCE, &rows, &mut shown).is_some());
        assert!(rt; says(&shown, &[(16, 0)]));
        // late in tick 200, new in 201; late again in 416, the first own tick after 400, and stopped then
        let mut again: [Option<Shown>; 600] = [None; 600];
        assert!(rt; run(&BY_TURNS, task(200, 200, 1), &SHOWS_ONCE, &rows, &mut again).is_some());
        assert!(rt; says(&again, &[(16, 0), (201, 0)]));
    }

    #[test]
    fn deadline_of_the_last_tick_before(rt: HostRuntime) {
        // its first own tick is 16: with a deadline of 16 it is late before it does anything, with 17 it shows
        let rows: [&[Arrival]; 100] = [&[]; 100];
        let mut shown: [Option<Shown>; 100] = [None; 100];
        assert!(rt; run(&BY_TURNS, task(200, 16, 0), &SHOWS_ONCE, &rows, &mut shown).is_some());
        assert!(rt; says(&shown, &[]));
        let mut more: [Option<Shown>; 100] = [None; 100];
        assert!(rt; run(&BY_TURNS, task(200, 17, 0), &SHOWS_ONCE, &rows, &mut more).is_some());
        assert!(rt; says(&more, &[(16, 0)]));
    }

    #[test]
    fn period_of_one_tick(rt: HostRuntime) {
        // in each own tick its period is long over, so it is late before it does anything
        let rows: [&[Arrival]; 400] = [&[]; 400];
        let mut shown: [Option<Shown>; 400] = [None; 400];
        assert!(rt;
            run(
                &BY_TURNS,
                task(1, 1, 255),
                &SHOWS_AND_WAITS,
                &rows,
                &mut shown
            )
            .is_some()
        );
        assert!(rt; says(&shown, &[]));
    }

    #[test]
    fn periods_over_before_the_next_window(rt: HostRuntime) {
        // new every 20 ticks; between 100 and 166 four periods go by, and the beginning moves on by one in each own tick:
        // 100 in 166, late at once; 120 in 167; 140 in 168; 160 in 169, which has 11 ticks left
        let rows: [&[Arrival]; 230] = [&[]; 230];
        let mut shown: [Option<Shown>; 230] = [None; 230];
        assert!(rt;
            run(
                &BY_TURNS,
                task(20, 20, 255),
                &SHOWS_AND_WAITS,
                &rows,
                &mut shown,
            )
            .is_some()
        );
        assert!(rt;
            says(
                &shown,
                &[
                    (16, 0),
                    (20, 0),
                    (40, 0),
                    (60, 0),
                    (80, 0),
                    (169, 0),
                    (180, 0),
                    (200, 0),
                    (220, 0),
                ],
            )
        );
    }

    #[test]
    fn lates_are_forgotten_by_waiting(rt: HostRuntime) {
        // the same with two lates: late in 166, 167 and 168, so it is stopped in 168
        let rows: [&[Arrival]; 230] = [&[]; 230];
        let mut shown: [Option<Shown>; 230] = [None; 230];
        assert!(rt;
            run(
                &BY_TURNS,
                task(20, 20, 2),
                &SHOWS_AND_WAITS,
                &rows,
                &mut shown
            )
            .is_some()
        );
        assert!(rt; says(&shown, &[(16, 0), (20, 0), (40, 0), (60, 0), (80, 0)]));
        // with three it goes on
        let mut more: [Option<Shown>; 230] = [None; 230];
        assert!(rt;
            run(
                &BY_TURNS,
                task(20, 20, 3),
                &SHOWS_AND_WAITS,
                &rows,
                &mut more
            )
            .is_some()
        );
        assert!(rt;
            says(
                &more,
                &[
                    (16, 0),
                    (20, 0),
                    (40, 0),
                    (60, 0),
                    (80, 0),
                    (169, 0),
                    (180, 0),
                    (200, 0),
                    (220, 0),
                ],
            )
        );
    }

    // Hears until there is nothing more, counting in t0, and shows the count's two low bytes:
    // li a7, 5; li t1, -1; ecall; beq a0, t1, +12; addi t0, t0, 1; jal zero, -12; mv a0, t0; li a7, 0; ecall;
    // srli a0, t0, 8; ecall; and round for ever
    const COUNTS: [u32; 12] = [
        HEAR,
        0xfff0_0313,
        ECALL,
        0x0065_0663,
        0x0012_8293,
        0xff5f_f06f,
        0x0002_8513,
        SHOW,
        ECALL,
        0x0082_d513,
        ECALL,
        FOR_EVER,
    ];

    #[test]
    fn unheard_bytes(rt: HostRuntime) {
        // 1,024 bytes in tick 0: two instructions, four for each byte, ecall and branch, and two more, then the first show:
        // 16 + 2 + 4 * 1,024 + 2 + 2
        let byte = [Arrival {
            partition: 0,
            byte: 9,
        }; 1024];
        let mut rows: [&[Arrival]; 4200] = [&[]; 4200];
        rows[0] = &byte;
        let mut shown: [Option<Shown>; 4200] = [None; 4200];
        assert!(rt;
            run(
                &ALONE,
                task(1_000_000, 1_000_000, 0),
                &COUNTS,
                &rows,
                &mut shown,
            )
            .is_some()
        );
        assert!(rt; says(&shown, &[(4118, 0), (4120, 4)]));
        // one more in tick 1 is lost
        rows[1] = &[Arrival {
            partition: 0,
            byte: 9,
        }];
        let mut more: [Option<Shown>; 4200] = [None; 4200];
        assert!(rt;
            run(
                &ALONE,
                task(1_000_000, 1_000_000, 0),
                &COUNTS,
                &rows,
                &mut more,
            )
            .is_some()
        );
        assert!(rt; says(&more, &[(4118, 0), (4120, 4)]));
    }

    // Sends so many bytes from 1,024 on, as the first word puts them into t0, and shows the answer; takes to 2,048, and shows
    // an eighth of the length: mv a2, t0; li a7, 3; ecall; li a7, 0; ecall; li a0, 0; li a1, 2,047; addi a1, a1, 1; li a7, 4;
    // ecall; srli a0, a1, 3; li a7, 0; ecall; and round for ever
    fn exchange(count: u32) -> [u32; 16] {
        [
            count,
            0x4000_0593,
            0x0002_8613,
            SEND,
            ECALL,
            SHOW,
            ECALL,
            0x0000_0513,
            0x7ff0_0593,
            0x0015_8593,
            TAKE,
            ECALL,
            0x0035_d513,
            SHOW,
            ECALL,
            FOR_EVER,
        ]
    }

    #[test]
    fn messages_of_no_and_of_the_most_bytes(rt: HostRuntime) {
        let rows: [&[Arrival]; 60] = [&[]; 60];
        // li t0, 0: sent, and taken with length 0
        let mut none: [Option<Shown>; 60] = [None; 60];
        assert!(rt;
            run(
                &ALONE,
                task(1_000, 1_000, 0),
                &exchange(0x0000_0293),
                &rows,
                &mut none,
            )
            .is_some()
        );
        assert!(rt; says(&none, &[(22, 0), (30, 0)]));
        // li t0, 1024: sent, and taken with length 1,024, an eighth of which is 128
        let mut most: [Option<Shown>; 60] = [None; 60];
        assert!(rt;
            run(
                &ALONE,
                task(1_000, 1_000, 0),
                &exchange(0x4000_0293),
                &rows,
                &mut most,
            )
            .is_some()
        );
        assert!(rt; says(&most, &[(22, 0), (30, 128)]));
        // li t0, 1025: refused, and there is nothing to take, so that a1 stays 2,048, an eighth of which ends in 0
        let mut over: [Option<Shown>; 60] = [None; 60];
        assert!(rt;
            run(
                &ALONE,
                task(1_000, 1_000, 0),
                &exchange(0x4010_0293),
                &rows,
                &mut over,
            )
            .is_some()
        );
        assert!(rt; says(&over, &[(22, 255), (30, 0)]));
    }
}
