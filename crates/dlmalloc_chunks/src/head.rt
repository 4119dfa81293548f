// Head words: a size with two bits.
ghost use Rattle.std.specs.Prelude.{◌≡◌, ◌%◌, true, false};
ghost use Rattle.dlmalloc_chunks.specs.Head.{size_of, pinuse_of, cinuse_of, free_of, head_of, with_pinuse, without_pinuse};

/// The bit of a head that says that the chunk before is in use.
const PINUSE: u64 = 1;

/// The bit of a head that says that its chunk is in use.
const CINUSE: u64 = 2;

/// The bits of a head that are no part of the size.
const FLAG_BITS: u64 = 7;

/// The size in a head.
#[tactic(auto, using(crate::proofs::HeadBits::and_high))]
pub(crate) fn size_of(head: u64) -> u64
    ensures { result ≡ size_of head }
{
    head & !FLAG_BITS
}

/// Whether the chunk before is in use.
#[tactic(auto, using(crate::proofs::HeadBits::and_one))]
pub(crate) fn pinuse_of(head: u64) -> bool
    ensures { result ≡ pinuse_of head }
{
    head & PINUSE != 0
}

/// Whether the chunk is in use.
#[tactic(auto, using(crate::proofs::HeadBits::and_two))]
pub(crate) fn cinuse_of(head: u64) -> bool
    ensures { result ≡ cinuse_of head }
{
    head & CINUSE != 0
}

/// A head with bit 0 set.
#[tactic(auto, using(crate::proofs::HeadBits::or_one))]
pub(crate) fn with_pinuse(head: u64) -> u64
    ensures { result ≡ with_pinuse head }
{
    head | PINUSE
}

/// A head with bit 0 clear.
#[tactic(auto, using(crate::proofs::HeadBits::and_not_one))]
pub(crate) fn without_pinuse(head: u64) -> u64
    ensures { result ≡ without_pinuse head }
{
    head & !PINUSE
}

/// The head of a free chunk: the chunk before it is in use.
#[tactic(auto, using(crate::proofs::HeadBits::or_bits))]
pub(crate) fn free_head(size: u64) -> u64
    requires { size % 8 ≡ 0 }
    ensures { result ≡ head_of size true false }
{
    size | PINUSE
}

/// The head of a chunk in use.
#[tactic(auto, using(crate::proofs::HeadBits::or_bits))]
pub(crate) fn used_head(size: u64, pinuse: bool) -> u64
    requires { size % 8 ≡ 0 }
    ensures { result ≡ head_of size pinuse true }
{
    size | if pinuse { PINUSE | CINUSE } else { CINUSE }
}
