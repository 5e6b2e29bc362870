//! Bytes that are a plan.
ghost use Rattle.std.specs.Prelude.{◌≡◌, true};
ghost use Rattle.plan.specs.Taken.{accepts};

pub mod methods;

/// Lent bytes that `check` took. What they say is read where it lies.
#[derive(Drop)]
pub struct View<'a> {
    bytes: &'a [u8],
    ghost sound: { accepts bytes.now ≡ true },
}
