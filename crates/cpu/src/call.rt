//! Calls of the system, and what comes back of one.
ghost use Rattle.std.specs.Prelude.{◌≡◌};
ghost use Rattle.cpu.specs.Calls.{call_of};

/// A call, as a task's registers say it: its number in x17, its arguments in x10 to x12.
#[derive(Clone, Copy, PartialEq, Eq, Debug)]
pub enum Call {
    /// 0: shows a byte in this tick.
    Show(u8),
    /// 1: waits for the task's next period.
    Wait,
    /// 2: asks for the time.
    Clock,
    /// 3: sends bytes of the partition's memory into a channel.
    Send {
        channel: u32,
        address: u32,
        length: u32,
    },
    /// 4: takes the first message of a channel into the partition's memory.
    Take {
        channel: u32,
        address: u32,
    },
    /// 5: takes the unheard byte that came first.
    Hear,
    /// Every other number: answered with no, and nothing is done.
    Unknown,
}

/// What comes back of a call.
#[derive(Clone, Copy, PartialEq, Eq, Debug)]
pub enum Answer {
    /// A number, in x10.
    Value(u32),
    /// A message was taken: how many ticks ago it was sent, in x10, and its length, in x11.
    Message { age: u32, length: u32 },
}

impl Answer {
    /// What comes back of a call that is refused, and of one that finds nothing.
    pub const NO: Answer = Answer::Value(u32::MAX);
}

impl Call {
    // No `From`: it is made of four numbers, which a tuple would only put together to be taken apart.
    /// The call with a number, as x17 has it, and with what x10, x11 and x12 hold.
    pub fn of(number: u32, a0: u32, a1: u32, a2: u32) -> Call
        ensures value { result ≡ call_of number a0 a1 a2 }
    {
        match number {
            0 => Call::Show((a0 % 256) as u8),
            1 => Call::Wait,
            2 => Call::Clock,
            3 => Call::Send {
                channel: a0,
                address: a1,
                length: a2,
            },
            4 => Call::Take {
                channel: a0,
                address: a1,
            },
            5 => Call::Hear,
            _ => Call::Unknown,
        }
    }
}
