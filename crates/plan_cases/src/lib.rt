//! Worked cases of plans and rows in bytes: damaged plans with the refusal's number and place, worked out by hand from the
//! format; the largest plan and the smallest; each fault of a row.
#![tactic(auto)]

#[cfg(test)]
mod tests {
    use plan::check::check as check_plan;
    use plan::rows::row_end;
    use std::alloc::{AllocError, Global};
    use std::process::Abort;
    use std::test::Fail;

    // A plan with two partitions, two windows, two channels and two tasks. By place: the name 0, s 4, partitions 6, windows 7,
    // channels 9; window 0 at 10 (whose; ticks at 11), window 1 at 15; channel 0 at 20 (from, to, bytes at 22, places at 24),
    // channel 1 at 25; partition 0 at 30 (pages; tasks at 32), its task 0 at 33 (priority; period at 34, deadline at 38, lates at
    // 42), task 1 at 43; partition 1 at 53 (pages; tasks at 55); the memories at 56 and 4,152, to 8,248.
    const HEAD: [u8; 56] = [
        b'T', b'I', b'M', b'E', 16, 0, 2, 2, 0, 2, // the head
        0, 100, 0, 0, 0, // window 0: 100 ticks of partition 0
        1, 50, 0, 0, 0, // window 1: 50 ticks of partition 1
        0, 1, 4, 0, 0, // channel 0: from 0 to 1, 4 bytes, no places
        1, 0, 0, 4, 64, // channel 1: from 1 to 0, 1,024 bytes, 64 places
        1, 0, 2, // partition 0: a page, two tasks
        0, 200, 0, 0, 0, 200, 0, 0, 0, 0, // task 0: period and deadline 200
        255, 0, 0xe1, 0xf5, 0x05, 1, 0, 0, 0, 255, // task 1: period 100,000,000, deadline 1
        1, 0, 0, // partition 1: a page, no tasks
    ];

    // Rows of a table stay tuples: a struct's six names in 123 rows would hide the numbers that were worked out.

    // Length, place, bytes and value of the damage; the number and the place of the refusal, 0 and 0 where it is taken.
    const DAMAGED_1: [(usize, usize, usize, u32, u8, usize); 40] = [
        (8248, 0, 0, 0, 0, 0), // as it is
        (0, 0, 0, 0, 1, 0), // ends before nothing
        (1, 0, 0, 0, 1, 1), // ends before the name
        (3, 0, 0, 0, 1, 3), // ends before the name's last byte
        (4, 0, 0, 0, 1, 4), // ends before s
        (5, 0, 0, 0, 1, 5), // ends before s, its second byte
        (6, 0, 0, 0, 1, 6), // ends before partitions
        (7, 0, 0, 0, 1, 7), // ends before windows
        (8, 0, 0, 0, 1, 8), // ends before windows, second byte
        (9, 0, 0, 0, 1, 9), // ends before channels
        (10, 0, 0, 0, 1, 10), // ends before window 0, whose
        (11, 0, 0, 0, 1, 11), // ends before its ticks
        (14, 0, 0, 0, 1, 14), // ends before its ticks, last byte
        (15, 0, 0, 0, 1, 15), // ends before window 1, whose
        (16, 0, 0, 0, 1, 16), // ends before its ticks
        (19, 0, 0, 0, 1, 19), // ends before its ticks, last byte
        (20, 0, 0, 0, 1, 20), // ends before channel 0, from
        (21, 0, 0, 0, 1, 21), // ends before its to
        (22, 0, 0, 0, 1, 22), // ends before its bytes
        (23, 0, 0, 0, 1, 23), // ends before its bytes, second
        (24, 0, 0, 0, 1, 24), // ends before its places
        (25, 0, 0, 0, 1, 25), // ends before channel 1, from
        (29, 0, 0, 0, 1, 29), // ends before its places
        (30, 0, 0, 0, 1, 30), // ends before partition 0, pages
        (31, 0, 0, 0, 1, 31), // ends before pages, second byte
        (32, 0, 0, 0, 1, 32), // ends before its tasks
        (33, 0, 0, 0, 1, 33), // ends before task 0, priority
        (34, 0, 0, 0, 1, 34), // ends before its period
        (37, 0, 0, 0, 1, 37), // ends before its period, last byte
        (38, 0, 0, 0, 1, 38), // ends before its deadline
        (41, 0, 0, 0, 1, 41), // ends before its deadline, last byte
        (42, 0, 0, 0, 1, 42), // ends before its lates
        (43, 0, 0, 0, 1, 43), // ends before task 1, priority
        (52, 0, 0, 0, 1, 52), // ends before its lates
        (53, 0, 0, 0, 1, 53), // ends before partition 1, pages
        (54, 0, 0, 0, 1, 54), // ends before pages, second byte
        (55, 0, 0, 0, 1, 55), // ends before its tasks
        (56, 0, 0, 0, 1, 56), // ends before memory 0
        (57, 0, 0, 0, 1, 57), // ends before memory 0, second byte
        (4151, 0, 0, 0, 1, 4151), // ends before memory 0, last byte
    ];

    // Length, place, bytes and value of the damage; the number and the place of the refusal, 0 and 0 where it is taken.
    const DAMAGED_2: [(usize, usize, usize, u32, u8, usize); 40] = [
        (4152, 0, 0, 0, 1, 4152), // ends before memory 1
        (8247, 0, 0, 0, 1, 8247), // ends before memory 1, last byte
        (8249, 0, 0, 0, 1, 8248), // one byte too many
        (8300, 0, 0, 0, 1, 8248), // many bytes too many
        (8248, 0, 1, 32, 2, 0), // the name's byte 0
        (8248, 1, 1, 32, 2, 0), // the name's byte 1
        (8248, 2, 1, 32, 2, 0), // the name's byte 2
        (8248, 3, 1, 32, 2, 0), // the name's byte 3
        (4, 3, 1, 101, 2, 0), // four bytes that are not the name
        (3, 0, 1, 32, 1, 3), // three bytes are too few to be a wrong name
        (8248, 4, 2, 0, 3, 4), // s is 0
        (8248, 4, 2, 15, 3, 4), // s is 15
        (8248, 4, 2, 49, 0, 0), // s is 49, below every window's ticks
        (8248, 4, 2, 50, 3, 16), // s is 50, window 1 is not longer
        (8248, 4, 2, 99, 3, 16), // s is 99, window 1 is not longer
        (8248, 4, 2, 100, 3, 11), // s is 100, window 0 is not longer
        (8248, 4, 2, 65535, 3, 11), // s is 65,535, window 0 is not longer
        (8248, 6, 1, 0, 3, 6), // no partitions
        (8248, 6, 1, 33, 3, 6), // 33 partitions
        (8248, 6, 1, 255, 3, 6), // 255 partitions
        (8248, 6, 1, 1, 3, 15), // one partition, and window 1 is of partition 1
        (8248, 7, 2, 0, 3, 7), // no windows
        (8248, 7, 2, 257, 3, 7), // 257 windows
        (8248, 7, 2, 65535, 3, 7), // 65,535 windows
        (8248, 9, 1, 129, 3, 9), // 129 channels
        (8248, 9, 1, 255, 3, 9), // 255 channels
        (8248, 10, 1, 2, 3, 10), // window 0 is of partition 2
        (8248, 10, 1, 255, 3, 10), // window 0 is of partition 255
        (8248, 11, 4, 0, 3, 11), // window 0 has no ticks
        (8248, 11, 4, 16, 3, 11), // window 0 has 16 ticks
        (8248, 11, 4, 17, 0, 0), // window 0 has 17 ticks
        (8248, 11, 4, 1000000, 0, 0), // window 0 has 1,000,000 ticks
        (8248, 11, 4, 1000001, 3, 11), // window 0 has one more
        (8248, 11, 4, 4294967295, 3, 11), // window 0 has the most ticks that four bytes say
        (8248, 15, 1, 2, 3, 15), // window 1 is of partition 2
        (8248, 15, 1, 255, 3, 15), // window 1 is of partition 255
        (8248, 16, 4, 0, 3, 16), // window 1 has no ticks
        (8248, 16, 4, 16, 3, 16), // window 1 has 16 ticks
        (8248, 16, 4, 17, 0, 0), // window 1 has 17 ticks
        (8248, 16, 4, 1000000, 0, 0), // window 1 has 1,000,000 ticks
    ];

    // Length, place, bytes and value of the damage; the number and the place of the refusal, 0 and 0 where it is taken.
    const DAMAGED_3: [(usize, usize, usize, u32, u8, usize); 40] = [
        (8248, 16, 4, 1000001, 3, 16), // window 1 has one more
        (8248, 16, 4, 4294967295, 3, 16), // window 1 has the most ticks that four bytes say
        (8248, 20, 1, 2, 3, 20), // channel 0 from partition 2
        (8248, 21, 1, 2, 3, 21), // channel 0 to partition 2
        (8248, 22, 2, 1025, 3, 22), // channel 0 for 1,025 bytes
        (8248, 22, 2, 65535, 3, 22), // channel 0 for 65,535 bytes
        (8248, 24, 1, 64, 0, 0), // channel 0 with 64 places
        (8248, 24, 1, 65, 3, 24), // channel 0 with 65 places
        (8248, 25, 1, 2, 3, 25), // channel 1 from partition 2
        (8248, 26, 1, 2, 3, 26), // channel 1 to partition 2
        (8248, 27, 2, 1025, 3, 27), // channel 1 for 1,025 bytes
        (8248, 27, 2, 65535, 3, 27), // channel 1 for 65,535 bytes
        (8248, 29, 1, 64, 0, 0), // channel 1 with 64 places
        (8248, 29, 1, 65, 3, 29), // channel 1 with 65 places
        (8248, 21, 1, 0, 0, 0), // channel 0 from 0 to 0
        (8248, 30, 2, 0, 3, 30), // no pages
        (8248, 30, 2, 257, 3, 30), // 257 pages
        (8248, 30, 2, 256, 1, 8248), // 256 pages, whose bytes are missing
        (8248, 30, 2, 2, 1, 8248), // two pages, whose bytes are missing
        (8248, 53, 2, 0, 3, 53), // partition 1 without pages
        (8248, 53, 2, 257, 3, 53), // partition 1 with 257 pages
        (8248, 32, 1, 17, 3, 32), // 17 tasks
        (8248, 55, 1, 17, 3, 55), // partition 1 with 17 tasks
        (8248, 55, 1, 255, 3, 55), // partition 1 with 255 tasks
        (8248, 33, 1, 77, 0, 0), // task 0: any priority
        (8248, 42, 1, 77, 0, 0), // task 0: any number of lates
        (8248, 34, 4, 0, 3, 34), // task 0: period 0
        (8248, 34, 4, 100000001, 3, 34), // task 0: period 100,000,001
        (8248, 38, 4, 0, 3, 38), // task 0: deadline 0
        (8248, 38, 4, 200, 0, 0), // task 0: deadline equal to the period
        (8248, 38, 4, 201, 3, 38), // task 0: deadline above the period
        (8248, 43, 1, 77, 0, 0), // task 1: any priority
        (8248, 52, 1, 77, 0, 0), // task 1: any number of lates
        (8248, 44, 4, 0, 3, 44), // task 1: period 0
        (8248, 44, 4, 100000001, 3, 44), // task 1: period 100,000,001
        (8248, 48, 4, 0, 3, 48), // task 1: deadline 0
        (8248, 48, 4, 100000000, 0, 0), // task 1: deadline equal to the period
        (8248, 48, 4, 100000001, 3, 48), // task 1: deadline above the period
        (8248, 34, 4, 199, 3, 38), // task 0: the period one below its deadline
        (13, 10, 1, 2, 3, 10), // a fault before the end
    ];

    // Length, place, bytes and value of the damage; the number and the place of the refusal, 0 and 0 where it is taken.
    const DAMAGED_4: [(usize, usize, usize, u32, u8, usize); 3] = [
        (13, 11, 2, 65535, 1, 13), // the ticks are cut short, so their first bytes do not count
        (40, 38, 2, 0, 1, 40), // the deadline is cut short
        (9000, 34, 4, 0, 3, 34), // a fault, and bytes too many
    ];

    // The byte at a place of the plan with a number of so many bytes written at another.
    fn byte_at(k: usize, at: usize, bytes: usize, value: u32) -> u8 {
        if k >= at && k - at < bytes && k - at < 4 {
            return value.to_le_bytes()[k - at];
        }
        if k < 56 { HEAD[k] } else { 0 }
    }

    fn damaged(
        heap: Global,
        length: usize,
        at: usize,
        bytes: usize,
        value: u32,
    ) -> Result<Vec<u8>, AllocError> {
        (0..length)
            .map(|k| byte_at(k, at, bytes, value))
            .collect(heap)
    }

    fn told(plan: &[u8]) -> (u8, usize) {
        match check_plan(plan) {
            Ok(()) => (0, 0),
            Err(r) => (r.number(), r.place()),
        }
    }

    fn all_told(
        rt: &impl Abort,
        heap: Global,
        rows: &[(usize, usize, usize, u32, u8, usize)],
    ) -> Result<(), Fail> {
        for (length, at, bytes, value, number, place) in rows {
            let plan = damaged(heap, *length, *at, *bytes, *value)?;
            assert_eq!(rt; told(plan.as_slice()), (*number, *place));
        }
        Ok(())
    }

    #[test]
    fn damaged_plans(rt: HostRuntime) -> Result<(), Fail> {
        all_told(&rt, rt.alloc(), &DAMAGED_1)?;
        all_told(&rt, rt.alloc(), &DAMAGED_2)?;
        all_told(&rt, rt.alloc(), &DAMAGED_3)?;
        all_told(&rt, rt.alloc(), &DAMAGED_4)?;
        Ok(())
    }

    // The smallest plan: one partition of one page without tasks, one window of 17 ticks, no channels.
    const SMALLEST: [u8; 18] = [
        b'T', b'I', b'M', b'E', 16, 0, 1, 1, 0, 0, 0, 17, 0, 0, 0, 1, 0, 0,
    ];

    #[test]
    fn smallest_plan(rt: HostRuntime) -> Result<(), Fail> {
        let mut plan = Vec::new(rt.alloc());
        plan.extend_from_slice(&SMALLEST)?;
        plan.resize(SMALLEST.len() + 4096, 0xff)?;
        assert_eq!(rt; told(plan.as_slice()), (0, 0));
        plan.push(0)?;
        assert_eq!(rt; told(plan.as_slice()), (1, 4114));
        Ok(())
    }

    // The most of everything: 32 partitions of a page and 16 tasks, 256 windows, 128 channels. Its memories begin at
    // 10 + 5 * 256 + 5 * 128 + 32 * (3 + 16 * 10) = 7,146, and it ends at 7,146 + 32 * 4,096 = 138,218.
    fn largest(heap: Global) -> Result<Vec<u8>, AllocError> {
        let mut plan = Vec::new(heap);
        plan.extend_from_slice(&[b'T', b'I', b'M', b'E', 0xff, 0xff, 32, 0, 1, 128])?;
        for _ in 0..256 {
            plan.extend_from_slice(&[31, 0x40, 0x42, 0x0f, 0])?;
        }
        for _ in 0..128 {
            plan.extend_from_slice(&[31, 31, 0, 4, 64])?;
        }
        for _ in 0..32 {
            plan.extend_from_slice(&[1, 0, 16])?;
            for _ in 0..16 {
                plan.extend_from_slice(&[255, 0, 0xe1, 0xf5, 0x05, 0, 0xe1, 0xf5, 0x05, 255])?;
            }
        }
        let end = plan.len() + 131_072;
        plan.resize(end, 0x5a)?;
        Ok(plan)
    }

    #[test]
    fn largest_plan(rt: HostRuntime) -> Result<(), Fail> {
        let mut plan = largest(rt.alloc())?;
        assert_eq!(rt; plan.len(), 138_218);
        assert_eq!(rt; told(plan.as_slice()), (0, 0));
        plan.push(0)?;
        assert_eq!(rt; told(plan.as_slice()), (1, 138_218));
        Ok(())
    }

    // A row at a place of rows for two partitions, at a time; its end, or its refusal's place.
    fn row(rows: &[u8], k: usize, time: u64) -> Result<usize, usize> {
        row_end(rows, k, 2, time).map_err(|r| r.place())
    }

    #[test]
    fn rows_and_their_faults(rt: HostRuntime) {
        let rows = [0, 2, 0, 7, 1, 8, 1, 2, 9, 3, 0, 1];
        assert_eq!(rt; row(&rows, 0, 0), Ok(1));
        assert_eq!(rt; row(&rows, 1, 1), Ok(6));
        // partition 2 isn't
        assert_eq!(rt; row(&rows, 6, 2), Err(7));
        // cut short: the length of the rows' bytes
        assert_eq!(rt; row(&rows, 9, 3), Err(12));
        assert_eq!(rt; row(&rows, 12, 3), Err(12));
        assert_eq!(rt; row(&rows[0..3], 1, 1), Err(3));
        assert_eq!(rt; row(&rows[0..4], 1, 1), Err(4));
        assert_eq!(rt; row(&rows[0..2], 1, 1), Err(2));
        // the last tick, and one after it
        assert_eq!(rt; row(&rows, 0, 1_099_511_627_775), Ok(1));
        assert_eq!(rt; row(&rows, 0, 1_099_511_627_776), Err(0));
        assert_eq!(rt; row(&rows, 6, 1_099_511_627_776), Err(6));
    }
}
