//! A row of bytes from outside that was taken.
ghost use Rattle.std.specs.Prelude.{◌≡◌, true};
ghost use Rattle.plan.specs.Rows.{takes_row};

pub mod methods;

/// A row that `row_end` took, by where it begins.
#[derive(Drop)]
pub struct Row<'a> {
    bytes: &'a [u8],
    at: usize,
    partitions: u8,
    ghost sound: { takes_row partitions bytes.now at ≡ true },
}
