//! A stretch of ticks.
ghost use Rattle.std.specs.Prelude.{◌+◌, ◌^◌, ◌≤◌};

/// So many ticks in a row, from one on.
#[derive(Clone, Copy)]
pub struct Stretch {
    pub from: u64,
    pub ticks: u64,
    pub ghost clock: { from + ticks ≤ 2 ^ 40 },
}
