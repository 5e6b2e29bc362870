//! Where a partition's memory lies in the lent bytes.
ghost use Rattle.std.specs.Prelude.{◌≡◌, ◌+◌, ◌*◌, ◌≤◌, min, length, slice_index};
ghost use Rattle.reference.specs.Place.{place};

use std::ops::Range;

/// The bytes of so many pages.
fn bytes_of(pages: u16) -> usize
    ensures { result ≡ pages * 4096 }
{
    usize::from(pages) * 4096
}

/// Where the memory of partition q begins, or the largest number where that is too far.
fn beginning(pages: &[u16], q: usize) -> usize
    ensures value { result ≡ min (place pages.now q) 18446744073709551615 }
{
    let sizes = pages[..q.min(pages.len())].iter().map(|n| bytes_of(*n));
    sizes.fold(0, |sum, n| sum.saturating_add(n))
}

/// Where the memory of partition q lies, in so many bytes.
pub(crate) fn region(pages: &[u16], q: usize, size: usize) -> Range<usize>
    ensures start { result.start ≡ min (place pages.now q) size }
    ensures end { result.end ≡ min (place pages.now q + slice_index pages.now q * 4096) size }
{
    let start = beginning(pages, q).min(size);
    let own = pages.get(q).map_or(0, |n| bytes_of(*n));
    start..start + own.min(size - start)
}
