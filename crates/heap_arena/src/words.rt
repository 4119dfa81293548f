// Words by offsets of bytes.
//
// A place in the words would be the offset divided by 8, and the code that is made of it would clear the offset's low bits
// again at each access. So these go by pointers: each is a load or a store at the offset.
ghost use Rattle.std.specs.Prelude.{◌≡◌, ◌/◌, ◌%◌, ◌<◌, length, slice_index, slice_set};
ghost use Rattle.heap_memory.specs.Words.{with_byte};

/// The word at an offset of bytes.
pub(crate) fn word_at(words: &[u64], offset: usize) -> u64
    requires { (offset % 8 ≡ 0) × (offset / 8 < length words.now) }
    ensures { result ≡ slice_index words.now (offset / 8) }
{
    unsafe {
        let start = words.as_ptr() as *const u8;
        *(start.add(offset) as *const u64)
    }
}

/// Puts a word at an offset of bytes.
pub(crate) fn put_word(words: &mut [u64], offset: usize, value: u64)
    requires { (offset % 8 ≡ 0) × (offset / 8 < length words.old) }
    ensures { words.new ≡ slice_set words.old (offset / 8) value }
{
    unsafe {
        let start = words.as_mut_ptr() as *mut u8;
        *(start.add(offset) as *mut u64) = value;
    }
}

/// A word with another byte at a place.
#[tactic(auto, unfolding(heap_memory::specs::Words::with_byte))]
pub(crate) fn with_byte(word: u64, place: u64, byte: u8) -> u64
    requires { place < 8 }
    ensures { result ≡ with_byte word place byte }
{
    let mut bytes = word.to_le_bytes();
    bytes[place as usize] = byte;
    u64::from_le_bytes(bytes)
}
