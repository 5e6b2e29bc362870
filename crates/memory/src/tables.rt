//! The page tables: an address is looked up in the root table by its bits 22 to 31, in the leaf table by its bits 12 to 21,
//! and its bits 0 to 11 are the place in the page.
ghost use Rattle.std.specs.Prelude.{◌≡◌, ℕ, ◌+◌, ◌*◌, ◌<◌, ◌≤◌, length};
ghost use Rattle.std.specs.List.{between};
ghost use Rattle.octets.specs.Bytes.{at};
ghost use Rattle.memory.specs.Frames.{memory_of, pages_of, root_entry, leaf_entry, Mapped};

/// Bytes of a frame.
pub(crate) const FRAME: usize = 4096;

/// Bytes of the control frames.
pub const CONTROL: usize = 32768;

// Tables stay numbers in lent frames: fixed memory, as the machine's are, and no heap on the kernel's side.
/// Bytes of an entry of a table.
pub(crate) const ENTRY: usize = 4;

/// Entries of a table.
const ENTRIES: usize = 1024;

/// The frame of the leaf table.
const LEAF: u32 = 1;

/// The frame of the first page of memory.
const FIRST: u32 = 8;

/// Writes both tables, so that each page of memory is mapped to its frame and nothing else is mapped.
pub fn map(b: &mut [u8])
    requires whole { length b.old ≡ 32768 + 4096 * pages_of b.old }
    requires few { pages_of b.old ≤ 1024 }
    ensures mapped { Mapped b.new }
    ensures memory { memory_of b.new ≡ memory_of b.old }
    ensures behind { between 8192 32768 b.new ≡ between 8192 32768 b.old }
{
    let pages = (b.len() - CONTROL) / FRAME;
    write_table(&mut b[..FRAME], root_entry);
    write_table(&mut b[FRAME..2 * FRAME], |i| leaf_entry(pages, i));
}

/// Writes the entries of a table.
fn write_table<F: Fn(usize) -> u32>(t: &mut [u8], entry: F)
    requires size { length t.old ≡ 4096 }
    requires may { (i : ℕ) → i < 1024 → F.pre entry i }
    ensures entries { (i : ℕ) → i < 1024 → F.post entry i (at 4 t.new (4 * i)) }
{
    // Stays a range: tried by `chunks_exact_mut`, after which a proof knows the length alone.
    for i in 0..ENTRIES {
        octets::write(t, ENTRY * i, entry(i));
    }
}

/// Entry r of the root table: the leaf table serves the first addresses.
#[tactic(auto, using(crate::proofs::Sets::comparisons), unfolding(crate::specs::Frames::root_entry))]
fn root_entry(r: usize) -> u32
    ensures value { result ≡ root_entry r }
{
    if r == 0 { LEAF } else { 0 }
}

/// Entry i of the leaf table, with so many pages.
#[tactic(auto, using(crate::proofs::Sets::comparisons), unfolding(crate::specs::Frames::leaf_entry))]
fn leaf_entry(pages: usize, i: usize) -> u32
    requires few { i < 1024 }
    ensures value { result ≡ leaf_entry pages i }
{
    if i < pages { FIRST + i as u32 } else { 0 }
}
