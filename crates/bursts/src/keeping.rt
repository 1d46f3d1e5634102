// The bytes that are kept, and how many were seen.
ghost use Rattle.std.specs.Prelude.{◌≡◌, List, ℕ, ◌+◌, length};
ghost use Rattle.file.specs.Fronts.{most_file_bytes, stopped};
ghost use Rattle.file.specs.Format.{ReadsAs, verdict_in, tree_in};
ghost use Rattle.bursts.specs.Bursts.{Holds, kept_with};

use crate::{KEPT, MOST_SEEN};
use file::reader::read_front;
use tree::{Fault, Tree};

// Keeps what there is room for of a burst, after the bytes that are kept.
pub(crate) fn keep(kept: &mut [u8], count: usize, burst: &[u8])
    requires { length kept.old ≡ most_file_bytes }
    ensures { kept.new ≡ kept_with kept.old count burst.now }
{
    let from = count.min(KEPT);
    let n = burst.len().min(KEPT - from);
    // Stays: `copy_from_slice` would have the archive for C ask for `memmove`, and a host has to lend memcpy and memset alone (hfsc.h).
    for i in 0..n {
        kept[from + i] = burst[i];
    }
}

// So many bytes more, counted up to 2^32.
pub(crate) fn counted(count: usize, bytes: usize) -> usize
    ensures { result ≡ stopped (count + bytes) }
{
    count.saturating_add(bytes).min(MOST_SEEN)
}

// What the file reads as of which these are the first bytes, with so many seen.
pub(crate) fn reading(kept: &[u8], count: usize) -> Result<Tree, Fault>
    requires { length kept.now ≡ most_file_bytes }
    ensures { (file : List ℕ) → Holds kept.now count file → ReadsAs file (verdict_in result) (tree_in result) }
{
    read_front(&kept[..count.min(kept.len())], count)
}
