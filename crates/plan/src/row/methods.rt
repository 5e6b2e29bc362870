//! What a row says.
ghost use Rattle.std.specs.Prelude.{◌≡◌, true, length};
ghost use Rattle.std.specs.List.{slice_get};
ghost use Rattle.plan.specs.Rows.{takes_row, row_in};
ghost use Rattle.plan.specs.RowViews.{arrivals_of};

use super::Row;
use crate::reader::Reader;
use crate::record::nth;
use crate::rows::row_byte;
use model::plan::Arrival;

impl<'a> Row<'a> {
    /// The row that begins at `at`, which `row_end` took.
    pub fn new(bytes: &'a [u8], at: usize, partitions: u8) -> Row<'a>
        requires { takes_row partitions bytes.now at ≡ true }
        ensures value { arrivals_of result ≡ row_in partitions bytes.now at }
    {
        Row {
            bytes,
            at,
            partitions,
        }
    }

    /// How many bytes came.
    pub fn len(&self) -> u8
        ensures value { result ≡ length (arrivals_of self.now) }
    {
        let mut r = Reader {
            bytes: self.bytes,
            at: self.at,
        };
        row_byte(&mut r, 255).unwrap()
    }

    /// A byte that came, in the order in which they came.
    pub fn arrival(&self, i: u8) -> Option<Arrival>
        ensures value { result ≡ slice_get (arrivals_of self.now) i }
    {
        let n = self.len();
        nth(
            self.bytes,
            self.at + 1,
            u16::from(n),
            u16::from(i),
            self.partitions,
        )
    }
}
