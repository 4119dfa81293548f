// How many free chunks in bins there are of each class.
ghost use Rattle.std.specs.Prelude.{◌≡◌, ◌<◌, ◌+◌, ◌^◌, ℕ, length, slice_index, if◌then◌else◌, ◌&&◌, nat_le};
ghost use Rattle.run_figures.specs.Classes.{is_in_bin, is_small, is_large, small_count, tree_count};

use dlmalloc_chunks::{Extent, Kind, compute_tree_index};

// Counts the extent if it is a chunk in a small bin.
fn note_small(counts: &mut [u64; 256], extent: Extent)
    requires { (size : ℕ) → size < 256 → slice_index counts.old size < 2 ^ 63 }
    ensures size { length counts.new ≡ 256 }
    ensures counted { (size : ℕ) → size < 256 → slice_index counts.new size ≡ slice_index counts.old size + (if is_small size extent then 1 else 0) }
{
    if extent.kind == Kind::Free && extent.size < 256 {
        counts[extent.size as usize] += 1;
    }
}

/// How many chunks in bins there are of each size below 256. The victim and the top are in no bin.
pub fn small_counts(extents: &[Extent]) -> [u64; 256]
    ensures { (size : ℕ) → size < 256 → slice_index result size ≡ small_count size extents.now }
{
    let mut counts = [0u64; 256];
    for extent in extents {
        note_small(&mut counts, *extent);
    }
    counts
}

// Whether the extent is a chunk in a tree bin.
fn is_in_tree(extent: Extent) -> bool
    ensures { result ≡ (is_in_bin extent.kind && nat_le 256 extent.size) }
{
    extent.kind == Kind::Free && extent.size >= 256
}

// Counts the extent if it is a chunk in a tree bin.
fn note_large(counts: &mut [u64; 32], extent: Extent)
    requires { (index : ℕ) → index < 32 → slice_index counts.old index < 2 ^ 63 }
    ensures size { length counts.new ≡ 32 }
    ensures counted { (index : ℕ) → index < 32 → slice_index counts.new index ≡ slice_index counts.old index + (if is_large index extent then 1 else 0) }
{
    if is_in_tree(extent) {
        counts[compute_tree_index(extent.size) as usize] += 1;
    }
}

/// How many chunks each tree bin has.
pub fn tree_counts(extents: &[Extent]) -> [u64; 32]
    ensures { (index : ℕ) → index < 32 → slice_index result index ≡ tree_count index extents.now }
{
    let mut counts = [0u64; 32];
    for extent in extents {
        note_large(&mut counts, *extent);
    }
    counts
}
