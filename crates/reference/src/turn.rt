//! Whose tick it is.
ghost use Rattle.std.specs.Prelude.{◌≡◌, ◌%◌, ◌^◌, ◌<◌, min};
ghost use Rattle.model.specs.World.{round, turn_in};

use model::plan::Window;

/// The ticks of a round, or the largest number where there are more.
fn round_of(windows: &[Window]) -> u64
    ensures value { result ≡ min (round windows.now) 18446744073709551615 }
{
    let ticks: u128 = windows.iter().map(|w| u128::from(w.ticks)).sum();
    u64::try_from(ticks).unwrap_or(u64::MAX)
}

/// Whose tick it is so many ticks into the round, where the first ticks of each window are the system's.
fn turn_in(system: u16, windows: &[Window], into: u64) -> Option<u8>
    ensures value { result ≡ turn_in system windows.now into }
{
    let mut left = into;
    // Left by a label: so the project writes loops over windows.
    'windows: for w in windows {
        let ticks = u64::from(w.ticks);
        if left >= ticks {
            left -= ticks;
            continue 'windows;
        }
        return (left >= u64::from(system)).then_some(w.partition);
    }
    None
}

/// Whose tick a tick is.
pub(crate) fn turn_at(system: u16, windows: &[Window], time: u64) -> Option<u8>
    requires { time < 2 ^ 40 }
    ensures value { result ≡ turn_in system windows.now (time % round windows.now) }
{
    let into = time.checked_rem(round_of(windows))?;
    turn_in(system, windows, into)
}
