//! What is read and written of them.
ghost use Rattle.std.specs.Prelude.{◌≡◌, slice_index, slice_set};
ghost use Rattle.cpu.specs.Core.{fresh};
ghost use Rattle.cpu.specs.Effects.{Inside};
ghost use Rattle.cpu.specs.Held.{core_of};
ghost use Rattle.cpu.specs.Rv32i.{answered, called, effect_fetched, going, going_on, held, written};

use super::Registers;
use crate::call::{Answer, Call};
use crate::effect::Effect;
use crate::execute::{execute, operands};
use decode::decode;
use decode::reg::Reg;

impl Registers {
    /// Those of a new task: its number in x10, and all else 0.
    pub fn new(task: u8) -> Registers
        ensures value { core_of result ≡ fresh task }
    {
        let mut x = [0; 32];
        x[10] = u32::from(task);
        Registers { pc: 0, x }
    }

    /// Those with these values; x0 is 0, whatever is given for it.
    pub fn of(pc: u32, x: [u32; 32]) -> Registers
        ensures value { core_of result ≡ record { pc = pc; x = slice_set x 0 0 } }
    {
        let mut x = x;
        x[0] = 0;
        Registers { pc, x }
    }

    /// The address of the instruction at hand.
    pub fn pc(&self) -> u32
        ensures value { result ≡ (core_of self.now).pc }
    {
        self.pc
    }

    /// What a register holds.
    pub fn get(&self, reg: Reg) -> u32
        ensures value { result ≡ held (core_of self.now) reg.number }
    {
        self.x[reg.number() as usize]
    }

    /// What all registers hold, x0 first.
    pub fn all(&self) -> [u32; 32]
        ensures value { result ≡ (core_of self.now).x }
        ensures zero { slice_index result 0 ≡ 0 }
    {
        self.x
    }

    /// Writes a register, unless it is x0.
    pub fn set(&mut self, rd: Reg, value: u32)
        ensures after { core_of self.new ≡ written (core_of self.old) rd.number value }
    {
        let number = rd.number();
        if number != 0 {
            self.x[number as usize] = value;
        }
    }

    /// Goes on at an address.
    pub fn go(&mut self, next: u32)
        ensures after { core_of self.new ≡ going (core_of self.old) next }
    {
        self.pc = next;
    }

    /// Goes on by 4.
    pub fn go_on(&mut self)
        ensures after { core_of self.new ≡ going_on (core_of self.old) }
    {
        self.pc = self.pc.wrapping_add(4);
    }

    /// The call that they say.
    pub fn call(&self) -> Call
        ensures value { result ≡ called (core_of self.now) }
    {
        Call::of(self.x[17], self.x[10], self.x[11], self.x[12])
    }

    /// Goes on by 4 with what comes back of a call.
    pub fn answer(&mut self, answer: Answer)
        ensures after { core_of self.new ≡ answered (core_of self.old) answer }
    {
        match answer {
            Answer::Value(v) => self.x[10] = v,
            Answer::Message { age, length } => {
                self.x[10] = age;
                self.x[11] = length;
            }
        }
        self.go_on();
    }

    /// What the instruction of the word at the pc does, where memory has so many bytes; with no word there, it is wrong.
    pub fn step(&self, word: Option<u32>, size: usize) -> Effect
        ensures value { result ≡ effect_fetched (core_of self.now) word size }
        ensures inside { Inside size result }
    {
        let Some(i) = word.and_then(decode) else {
            return Effect::Wrong;
        };
        let (rs1, rs2) = operands(&i);
        execute(i, self.pc, self.get(rs1), self.get(rs2), size)
    }
}
