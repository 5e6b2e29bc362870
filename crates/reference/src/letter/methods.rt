//! What is done with a message.
#![tactic(auto, unfolding(crate::specs::Letters::sent_of))]

ghost use Rattle.std.specs.Prelude.{◌≡◌, ◌≤◌, length};
ghost use Rattle.reference.specs.Letters.{sent_of};

use super::Letter;
use arrayvec::ArrayVec;

impl Letter {
    /// A message of these bytes, sent at this time.
    pub(crate) fn new(sent: u64, from: &[u8]) -> Letter
        requires { length from.now ≤ 1024 }
        ensures value { sent_of result ≡ record { at = sent; bytes = from.now } }
    {
        let mut bytes = ArrayVec::new();
        let _ = bytes.try_extend_from_slice(from);
        Letter { sent, bytes }
    }
}
