//! A message as a channel keeps it.
use arrayvec::ArrayVec;

mod methods;

#[derive(Default, Drop)]
pub(crate) struct Letter {
    pub(crate) sent: u64,
    pub(crate) bytes: ArrayVec<u8, 1024>,
}
