//! Bits by their places, each number of 64 bits holding those of as many places.

ghost use Rattle.std.specs.Prelude.{◌≡◌, ◌*◌, ◌<◌, ◌==◌, ◌||◌, ℕ, length};
ghost use Rattle.pol_cursor.specs.Inner.BitPlaces.{has_bit_of};

/// Whether the bit of a place is set. Behind the last number none is.
pub fn has_bit(bits: &[u64], place: usize) -> bool
    ensures { result ≡ has_bit_of bits.now place }
{
    match bits.get(place / 64) {
        Some(word) => *word >> (place % 64) & 1 == 1,
        None => false,
    }
}

/// Sets the bit of a place.
pub fn set_bit(bits: &mut [u64], place: usize)
    requires { place < 64 * length bits.old }
    ensures { (other : ℕ) → has_bit_of bits.new other ≡ (has_bit_of bits.old other || (place == other)) }
{
    bits[place / 64] |= 1 << (place % 64);
}
