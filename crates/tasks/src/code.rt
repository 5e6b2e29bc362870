//! The codes of a task's states.
ghost use Rattle.std.specs.Prelude.{◌≡◌};
ghost use Rattle.tasks.specs.Records.{state_in};
ghost use Rattle.tasks.specs.Codes.{number_of, state_of};

use model::plan::State;

/// What a record says of its task's state, in one byte.
#[derive(Clone, Copy)]
pub(crate) enum Code {
    Ready = 0,
    Waiting = 1,
    Stopped = 2,
    /// Stopped since it was late once too often.
    StoppedLate = 3,
}

impl From<Code> for u8 {
    ghost from_gives = { λ code n. n ≡ number_of code };

    fn from(code: Code) -> u8 {
        code as u8
    }
}

/// Every number stands for a state.
impl From<u8> for Code {
    ghost from_gives = { λ n code. state_of code ≡ state_in n };

    #[tactic(auto, unfolding(crate::specs::Records::state_in))]
    fn from(n: u8) -> Code {
        match n {
            0 => Code::Ready,
            1 => Code::Waiting,
            3 => Code::StoppedLate,
            _ => Code::Stopped,
        }
    }
}

impl From<Code> for State {
    ghost from_gives = { λ code state. state ≡ state_of code };

    fn from(code: Code) -> State {
        match code {
            Code::Ready => State::Ready,
            Code::Waiting => State::Waiting,
            Code::Stopped | Code::StoppedLate => State::Stopped,
        }
    }
}
