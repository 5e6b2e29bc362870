//! Worked cases of the core, at the edges of each instruction: what a word of the manual's formats does.
//!
//! Owns no code of the system. In each row x5 and x6 are read, x7 is written, the pc is 256, and memory has 4096 bytes.
#![tactic(auto)]

#[cfg(test)]
mod tests {
    use cpu::access::finish;
    use cpu::effect::Effect;
    use cpu::execute::execute;
    use cpu::registers::Registers;
    use decode::decode;
    use decode::instruction::LoadKind;
    use decode::reg::Reg;

    const PC: u32 = 256;

    const SIZE: u32 = 4096;

    // What the instruction of a word does where x5 and x6 hold a and b.
    fn effect_of(word: u32, a: u32, b: u32) -> Effect {
        decode(word).map_or(Effect::Wrong, |i| execute(i, PC, a, b, SIZE as usize))
    }

    // x7 is set to the value, and the task goes on at `next`.
    fn sets(value: u32, next: u32) -> Effect {
        let rd = Reg::of(7);
        Effect::Sets { rd, value, next }
    }

    // From where x7 is loaded.
    fn loads(word: u32, a: u32) -> Option<u32> {
        match effect_of(word, a, 0) {
            Effect::Loads { rd, address, .. } if rd.number() == 7 => Some(address),
            _ => None,
        }
    }

    // Where what is stored.
    fn stores(word: u32, a: u32, b: u32) -> Option<(u32, u32)> {
        match effect_of(word, a, b) {
            Effect::Stores { address, value, .. } => Some((address, value)),
            _ => None,
        }
    }

    fn is_wrong(word: u32, a: u32) -> bool {
        effect_of(word, a, 0) == Effect::Wrong
    }

    // A word, x5, x6, and what x7 gets.
    const REGISTERS: [(u32, u32, u32, u32); 22] = [
        (0x006283b3, 0xffffffff, 0x00000001, 0x00000000), // add
        (0x006283b3, 0x7fffffff, 0x00000001, 0x80000000), // add
        (0x406283b3, 0x00000000, 0x00000001, 0xffffffff), // sub
        (0x406283b3, 0x80000000, 0x00000001, 0x7fffffff), // sub
        (0x006293b3, 0x00000001, 0x0000001f, 0x80000000), // sll
        (0x006293b3, 0x00000003, 0x00000000, 0x00000003), // sll
        (0x006293b3, 0x00000001, 0x00000021, 0x00000002), // sll
        (0x0062a3b3, 0x80000000, 0x7fffffff, 0x00000001), // slt
        (0x0062a3b3, 0x7fffffff, 0x80000000, 0x00000000), // slt
        (0x0062a3b3, 0xffffffff, 0xffffffff, 0x00000000), // slt
        (0x0062b3b3, 0x80000000, 0x7fffffff, 0x00000000), // sltu
        (0x0062b3b3, 0x00000000, 0x00000001, 0x00000001), // sltu
        (0x0062c3b3, 0xff00ff00, 0x0ff00ff0, 0xf0f0f0f0), // xor
        (0x0062d3b3, 0x80000000, 0x0000001f, 0x00000001), // srl
        (0x0062d3b3, 0x80000000, 0x00000000, 0x80000000), // srl
        (0x0062d3b3, 0x80000000, 0x00000020, 0x80000000), // srl
        (0x4062d3b3, 0x80000000, 0x0000001f, 0xffffffff), // sra
        (0x4062d3b3, 0x80000000, 0x00000000, 0x80000000), // sra
        (0x4062d3b3, 0x7fffffff, 0x0000001f, 0x00000000), // sra
        (0x4062d3b3, 0x80000000, 0x00000021, 0xc0000000), // sra
        (0x0062e3b3, 0xff00ff00, 0x0ff00ff0, 0xfff0fff0), // or
        (0x0062f3b3, 0xff00ff00, 0x0ff00ff0, 0x0f000f00), // and
    ];

    // A word, x5, and what x7 gets.
    const IMMEDIATES: [(u32, u32, u32); 24] = [
        (0xfff28393, 0x00000000, 0xffffffff), // addi -1
        (0x00128393, 0xffffffff, 0x00000000), // addi 1
        (0x7ff28393, 0x7fffffff, 0x800007fe), // addi 2047
        (0x80028393, 0x00000000, 0xfffff800), // addi -2048
        (0x8002a393, 0x80000000, 0x00000001), // slti -2048
        (0xfff2a393, 0x00000000, 0x00000000), // slti -1
        (0x0002a393, 0xffffffff, 0x00000001), // slti 0
        (0xfff2b393, 0x00000005, 0x00000001), // sltiu -1
        (0xfff2b393, 0xffffffff, 0x00000000), // sltiu -1
        (0x0012b393, 0x00000000, 0x00000001), // sltiu 1
        (0xfff2c393, 0x0f0f0f0f, 0xf0f0f0f0), // xori -1
        (0xf002e393, 0x0000000f, 0xffffff0f), // ori -256
        (0xf002f393, 0x12345678, 0x12345600), // andi -256
        (0x01f29393, 0x00000001, 0x80000000), // slli 31
        (0x00029393, 0x80000000, 0x80000000), // slli 0
        (0x01f2d393, 0x80000000, 0x00000001), // srli 31
        (0x0002d393, 0xffffffff, 0xffffffff), // srli 0
        (0x41f2d393, 0x80000000, 0xffffffff), // srai 31
        (0x4002d393, 0x80000000, 0x80000000), // srai 0
        (0x41f2d393, 0x7fffffff, 0x00000000), // srai 31
        (0xfffff3b7, 0x00000000, 0xfffff000), // lui
        (0x000003b7, 0xffffffff, 0x00000000), // lui 0
        (0x00001397, 0x00000000, 0x00001100), // auipc
        (0xfffff397, 0x00000000, 0xfffff100), // auipc back
    ];

    #[test]
    fn computes(rt: HostRuntime) {
        for (word, a, b, value) in REGISTERS {
            assert_eq!(rt; effect_of(word, a, b), sets(value, PC + 4));
        }
        for (word, a, value) in IMMEDIATES {
            assert_eq!(rt; effect_of(word, a, 0), sets(value, PC + 4));
        }
    }

    // A word, x5 and x6: branches by -256 that are taken, and branches by 6 that are not.
    const TAKEN: [(u32, u32, u32); 8] = [
        (0xf06280e3, 0x80000000, 0x80000000), // beq
        (0xf06290e3, 0x00000000, 0xffffffff), // bne
        (0xf062c0e3, 0x80000000, 0x7fffffff), // blt
        (0xf062d0e3, 0x7fffffff, 0x80000000), // bge
        (0xf062d0e3, 0xffffffff, 0xffffffff), // bge
        (0xf062e0e3, 0x7fffffff, 0x80000000), // bltu
        (0xf062f0e3, 0x80000000, 0x7fffffff), // bgeu
        (0xf062f0e3, 0x00000000, 0x00000000), // bgeu
    ];

    const LEFT: [(u32, u32, u32); 8] = [
        (0x00628363, 0x00000000, 0xffffffff), // beq
        (0x00629363, 0x80000000, 0x80000000), // bne
        (0x0062c363, 0x7fffffff, 0x80000000), // blt
        (0x0062c363, 0xffffffff, 0xffffffff), // blt
        (0x0062d363, 0x80000000, 0x7fffffff), // bge
        (0x0062e363, 0x80000000, 0x7fffffff), // bltu
        (0x0062e363, 0x00000000, 0x00000000), // bltu
        (0x0062f363, 0x7fffffff, 0x80000000), // bgeu
    ];

    #[test]
    fn branches(rt: HostRuntime) {
        for (word, a, b) in TAKEN {
            assert_eq!(rt; effect_of(word, a, b), Effect::Goes { next: 0 });
        }
        for (word, a, b) in LEFT {
            assert_eq!(rt; effect_of(word, a, b), Effect::Goes { next: PC + 4 });
        }
        // The last word of memory; behind it; before its start; between two words.
        assert_eq!(rt;
            effect_of(0x6e628ee3, 0, 0),
            Effect::Goes { next: SIZE - 4 }
        );
        for word in [0x706280e3, 0xee628ee3, 0x00628363] {
            assert!(rt; is_wrong(word, 0));
        }
    }

    #[test]
    fn jumps(rt: HostRuntime) {
        assert_eq!(rt; effect_of(0xf01ff3ef, 0, 0), sets(PC + 4, 0));
        assert_eq!(rt; effect_of(0x6fd003ef, 0, 0), sets(PC + 4, SIZE - 4));
        for word in [0x701003ef, 0xefdff3ef, 0x002003ef] {
            assert!(rt; is_wrong(word, 0));
        }
        // JALR by -1 clears the lowest bit; by 2047 it goes round the end of the numbers.
        assert_eq!(rt; effect_of(0xfff283e7, 513, 0), sets(PC + 4, 512));
        assert_eq!(rt; effect_of(0xfff283e7, 514, 0), sets(PC + 4, 512));
        assert_eq!(rt; effect_of(0x7ff283e7, 0xfffff801, 0), sets(PC + 4, 0));
        assert!(rt; is_wrong(0xfff283e7, 511));
        assert!(rt; is_wrong(0xfff283e7, SIZE + 1));
    }

    // A word and x5: loads at x5 - 2048, stores at x5 + 2047, and accesses that are wrong.
    const LOADS: [(u32, u32); 10] = [
        (0x80028383, 0x00000800), // lb
        (0x80028383, 0x000017ff), // lb, the last
        (0x80029383, 0x00000800), // lh
        (0x80029383, 0x000017fe), // lh, the last
        (0x8002a383, 0x00000800), // lw
        (0x8002a383, 0x000017fc), // lw, the last
        (0x8002c383, 0x00000800), // lbu
        (0x8002c383, 0x000017ff), // lbu, the last
        (0x8002d383, 0x00000800), // lhu
        (0x8002d383, 0x000017fe), // lhu, the last
    ];

    const STORES: [(u32, u32); 6] = [
        (0x7e628fa3, 0xfffff801), // sb
        (0x7e628fa3, 0x00000800), // sb, the last
        (0x7e629fa3, 0xfffff801), // sh
        (0x7e629fa3, 0x000007ff), // sh, the last
        (0x7e62afa3, 0xfffff801), // sw
        (0x7e62afa3, 0x000007fd), // sw, the last
    ];

    const OUTSIDE: [(u32, u32); 23] = [
        (0x80028383, 0x00001800), // lb, behind
        (0x80028383, 0x000007ff), // lb, before
        (0x80029383, 0x00001800), // lh, behind
        (0x80029383, 0x000007ff), // lh, before
        (0x80029383, 0x00000801), // lh, odd
        (0x8002a383, 0x00001800), // lw, behind
        (0x8002a383, 0x000007ff), // lw, before
        (0x8002a383, 0x00000801), // lw, odd
        (0x8002a383, 0x00000802), // lw, between
        (0x8002c383, 0x00001800), // lbu, behind
        (0x8002c383, 0x000007ff), // lbu, before
        (0x8002d383, 0x00001800), // lhu, behind
        (0x8002d383, 0x000007ff), // lhu, before
        (0x8002d383, 0x00000801), // lhu, odd
        (0x7e628fa3, 0x00000801), // sb, behind
        (0x7e628fa3, 0xfffff800), // sb, before
        (0x7e629fa3, 0x00000801), // sh, behind
        (0x7e629fa3, 0xfffff800), // sh, before
        (0x7e629fa3, 0xfffff802), // sh, odd
        (0x7e62afa3, 0x00000801), // sw, behind
        (0x7e62afa3, 0xfffff800), // sw, before
        (0x7e62afa3, 0xfffff802), // sw, odd
        (0x7e62afa3, 0xfffff803), // sw, between
    ];

    #[test]
    fn accesses(rt: HostRuntime) {
        for (word, a) in LOADS {
            assert_eq!(rt; loads(word, a), Some(a.wrapping_sub(2048)));
        }
        for (word, a) in STORES {
            assert_eq!(rt;
                stores(word, a, 0x89abcdef),
                Some((a.wrapping_add(2047), 0x89abcdef))
            );
        }
        for (word, a) in OUTSIDE {
            assert!(rt; is_wrong(word, a));
        }
    }

    #[test]
    fn finishes(rt: HostRuntime) {
        assert_eq!(rt; finish(LoadKind::Lb, 0x7f), 0x7f);
        assert_eq!(rt; finish(LoadKind::Lb, 0x80), 0xffffff80);
        assert_eq!(rt; finish(LoadKind::Lbu, 0x80), 0x80);
        assert_eq!(rt; finish(LoadKind::Lh, 0x7fff), 0x7fff);
        assert_eq!(rt; finish(LoadKind::Lh, 0x8000), 0xffff8000);
        assert_eq!(rt; finish(LoadKind::Lhu, 0x8000), 0x8000);
        assert_eq!(rt; finish(LoadKind::Lw, 0x80000000), 0x80000000);
    }

    const WRONG: [u32; 18] = [
        0x00000000, // zeros
        0xffffffff, // ones
        0x00100073, // EBREAK
        0x30001073, // CSRRW
        0x000000f3, // ECALL with an rd
        0x0000100f, // FENCE.I
        0x00000001, // a word of 16 bits
        0x026283b3, // MUL
        0x406293b3, // ADD, other funct7
        0x40629393, // SLLI, other funct7
        0x0262d393, // SRLI, other funct7
        0x0002b383, // LOAD 3
        0x0002e383, // LOAD 6
        0x0002f383, // LOAD 7
        0x0062b023, // STORE 3
        0x0062a463, // BRANCH 2
        0x0062b463, // BRANCH 3
        0x000293e7, // JALR 1
    ];

    #[test]
    fn others(rt: HostRuntime) {
        for word in WRONG {
            assert!(rt; is_wrong(word, 0));
        }
        assert_eq!(rt; effect_of(0x00000073, 0, 0), Effect::Calls);
        assert_eq!(rt; effect_of(0x0ff0000f, 0, 0), Effect::Goes { next: PC + 4 });
        assert_eq!(rt; effect_of(0x8330000f, 0, 0), Effect::Goes { next: PC + 4 });
    }

    #[test]
    fn keeps_x0(rt: HostRuntime) {
        let mut registers = Registers::of(0xfffffffc, [1; 32]);
        assert_eq!(rt; registers.get(Reg::of(0)), 0);
        registers.set(Reg::of(0), 5);
        registers.set(Reg::of(31), 6);
        registers.go_on();
        assert_eq!(rt; registers.get(Reg::of(0)), 0);
        assert_eq!(rt; registers.get(Reg::of(31)), 6);
        assert_eq!(rt; registers.pc(), 0);
    }
}
