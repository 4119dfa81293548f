// The first place of a byte.
ghost use Rattle.std.specs.Prelude.{◌≡◌, ◌==◌, position};

use memchr::memchr;

// From this length on runs of bytes are compared at once, which takes longer to begin.
const LONG: usize = 48;

/// The first place of the byte.
pub fn first_of(byte: u8, bytes: &[u8]) -> Option<usize>
    ensures { result ≡ position (λ b. b == byte) bytes.now }
{
    if bytes.len() < LONG {
        return bytes.iter().position(|b| *b == byte);
    }
    memchr(byte, bytes)
}
