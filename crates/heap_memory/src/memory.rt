ghost use Rattle.std.specs.Prelude.{◌≡◌, ◌-◌, ◌%◌, [], IsTrue, slice_index};
ghost use Rattle.std.specs.Int.{w64, to_le_bytes};
ghost use Rattle.heap_memory.specs.Regions.{IsWordOf, is_granted};
ghost use Rattle.heap_memory.specs.Words.{IsStored, with_byte};

use crate::Links;

/// Words and bytes of the granted regions, by loads and stores that are not counted. Byte b of a word is its bits
/// 8b to 8b + 7.
pub trait Memory: Links {
    /// The word at an address.
    fn load(&self, at: u64) -> u64
        requires { IsWordOf (Self.regions self.now) at }
        ensures { result ≡ Self.word self.now at };

    /// Puts a word at an address, and changes nothing else.
    fn store(&mut self, at: u64, value: u64)
        requires { IsWordOf (Self.regions self.old) at }
        ensures stored { IsStored (Self.regions self.old) (Self.word self.old) at value (Self.word self.new) }
        ensures regions { Self.regions self.new ≡ Self.regions self.old }
        ensures follows { Self.follows self.old [] self.new };

    /// The byte at an address whose word is granted.
    fn load_byte(&self, at: u64) -> u8
        requires { IsWordOf (Self.regions self.now) (at - at % 8) }
        ensures { result ≡ slice_index (to_le_bytes w64 (Self.word self.now (at - at % 8))) (at % 8) }
    {
        self.load(at - at % 8).to_le_bytes()[(at % 8) as usize]
    }

    /// Puts a byte at an address whose word is granted, and changes nothing else.
    #[tactic(auto, unfolding(crate::specs::Words::with_byte))]
    fn store_byte(&mut self, at: u64, byte: u8)
        requires { IsWordOf (Self.regions self.old) (at - at % 8) }
        ensures stored { IsStored (Self.regions self.old) (Self.word self.old) (at - at % 8)
            (with_byte (Self.word self.old (at - at % 8)) (at % 8) byte) (Self.word self.new) }
        ensures regions { Self.regions self.new ≡ Self.regions self.old }
        ensures follows { Self.follows self.old [] self.new }
    {
        let mut bytes = self.load(at - at % 8).to_le_bytes();
        bytes[(at % 8) as usize] = byte;
        self.store(at - at % 8, u64::from_le_bytes(bytes));
    }
}
