// Sizes of requests and of bins.
ghost use Rattle.std.specs.Prelude.{◌≡◌, ℕ, ◌+◌, ◌-◌, ◌*◌, ◌/◌, ◌%◌, ◌^◌, ◌<◌, ◌≤◌};
ghost use Rattle.std.specs.Int.{IsPowerOfTwo};
ghost use Rattle.dlmalloc_chunks.specs.Request.{padded, limit};
ghost use Rattle.dlmalloc_chunks.specs.Bins.{IsTreeIndex};

/// The size of the chunk for `n` bytes, n below 2^64 - 32 (dlmalloc: `request2size`): 32 up to 22 bytes, else the least
/// multiple of 16 that is at least n + 8.
#[tactic(auto, unfolding(crate::specs::Request::padded))]
pub fn request2size(n: u64) -> u64
    requires { n < 2 ^ 64 - 32 }
    ensures is { result ≡ padded n }
    ensures holds { n + 8 ≤ result }
    ensures near { result ≤ n + 32 }
    ensures whole { result % 16 ≡ 0 }
    ensures least { 32 ≤ result }
{
    if n < 23 { 32 } else { (n + 23) / 16 * 16 }
}

/// The least request that is refused whatever is free, by the granularity, a power of two of at least 16 (dlmalloc:
/// `max_request`): 2^64 - 135 for 16, else 2^64 - 103 less the granularity.
#[tactic(auto, unfolding(crate::specs::Request::limit))]
pub fn max_request(granularity: u64) -> u64
    requires power { IsPowerOfTwo granularity }
    requires least { 16 ≤ granularity }
    ensures is { result ≡ limit granularity }
    ensures below { result < 2 ^ 64 - 32 }
{
    if granularity == 16 {
        u64::MAX - 134
    } else {
        u64::MAX - 102 - granularity
    }
}

/// The tree bin of a size of at least 256 (dlmalloc: `compute_tree_index`): two bins for each power of two, the last
/// of 32 for all that is greater.
pub fn compute_tree_index(size: u64) -> u32
    requires { 256 ≤ size }
    ensures { IsTreeIndex size result }
{
    let units = size >> 8;
    if units > 0xffff {
        return 31;
    }
    let place = units.ilog2();
    2 * place + ((size >> (place + 7)) & 1) as u32
}

/// The small bin of a size below 256 (dlmalloc: `small_index`): one for each multiple of 8.
pub fn small_index(size: u64) -> u32
    requires { size < 256 }
    ensures { result ≡ size / 8 }
{
    (size >> 3) as u32
}
