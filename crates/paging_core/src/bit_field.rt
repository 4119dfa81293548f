//! Fields of words: the bits from one place up to another.

ghost use Rattle.std.specs.Prelude.{◌≡◌, ℕ, ◌-◌, ◌^◌, ◌<◌, ◌≤◌};
ghost use Rattle.paging_core.specs.Field.{field_of, with_bit_field, ReplacesField};

/// The ones of the bits `low` up to `high`, `high` excluded.
fn mask(low: u32, high: u32) -> u64
    requires order { low < high }
    requires within { high ≤ 64 }
    ensures { result ≡ 2 ^ high - 2 ^ low }
{
    u64::MAX >> (64 - high) & u64::MAX << low
}

/// The number in the bits `low` up to `high` of the word, `high` excluded.
pub fn get_bits(word: u64, low: u32, high: u32) -> u64
    requires order { low < high }
    requires within { high ≤ 64 }
    ensures value { result ≡ field_of word low high }
    ensures fits { result < 2 ^ (high - low) }
{
    (word & mask(low, high)) >> low
}

/// The word with `value` in its bits `low` up to `high`, `high` excluded. All other bits stay.
pub fn set_bits(word: u64, low: u32, high: u32, value: u64) -> u64
    requires order { low < high }
    requires within { high ≤ 64 }
    requires fits { value < 2 ^ (high - low) }
    ensures value { result ≡ with_bit_field word low high value }
    ensures bits { ReplacesField word result low high value }
{
    word & !mask(low, high) | value << low
}
