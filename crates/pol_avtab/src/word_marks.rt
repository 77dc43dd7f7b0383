ghost use Rattle.std.specs.Prelude.{◌≡◌, ◌+◌, ◌*◌, ◌<◌, ◌++◌, ℕ, List, true, false, IfOk, OnOk, length};
ghost use Rattle.std.specs.List.{filter};
ghost use Rattle.pol_avtab.specs.Inner.DuplicateKeys.{bucket_of, is_met, is_shared, AreMarked};

use pol_cursor::{has_bit, set_bit};
use std::alloc::{AllocError, Global};
use std::marker::Model;

/// Which words were met, by two bits for each bucket: the first where a word of the bucket was met, the second where one was met
/// again, be it the same or another. Contracts see the bits.
#[derive(Drop)]
pub struct WordMarks {
    // How many low bits of a word's product its bucket leaves out.
    shift: u32,
    bits: Vec<u64>,
}

impl Model for WordMarks {
    ghost use Rattle.pol_avtab.specs.Inner.DuplicateKeys.{Marks, HasBuckets};

    ghost Value = { Marks };

    ghost view = { λ m. record { shift = m.shift; bits = m.bits.items } };

    ghost invariant = { λ m. HasBuckets m.shift m.bits.items };
}

impl WordMarks {
    /// None yet. There are at least four buckets for each of so many words, so that few share one.
    pub fn new(alloc: Global, words: u32) -> Result<WordMarks, AllocError>
        ensures met { IfOk result (λ marks. (word : ℕ) → is_met marks word ≡ false) }
        ensures shared { IfOk result (λ marks. (word : ℕ) → is_shared marks word ≡ false) }
    {
        let shift = (4 * words as u64).leading_zeros().min(58);
        let bits = vec![in alloc; 0; 1 << (59 - shift)]?;
        Ok(WordMarks { shift, bits })
    }

    /// Marks the buckets of more words.
    #[inline(never)]
    pub fn meet_all(&mut self, words: &[u64])
        ensures { (before : List ℕ) → AreMarked self.old before → AreMarked self.new (before ++ words.now) }
    {
        for word in words {
            self.meet(*word);
        }
    }

    /// Adds those of the words whose buckets are shared. They are put together at the front of the words first, each word in the place
    /// behind those before it, so that no branch waits for a mark.
    #[inline(never)]
    pub fn push_shared(&self, words: &mut [u64], found: &mut Vec<u64>) -> Result<(), AllocError>
        ensures { OnOk result (found.new.items ≡ found.old.items ++ filter (is_shared self.now) words.old) }
    {
        let mut count = 0;
        for i in 0..words.len() {
            let word = words[i];
            words[count] = word;
            count += usize::from(self.is_shared(word));
        }
        found.extend_from_slice(&words[..count])
    }

    // Marks the bucket of a word as met, or, where it is already, as shared.
    fn meet(&mut self, word: u64)
        ensures met { is_met self.new word ≡ true }
        ensures again { is_met self.old word ≡ true → is_shared self.new word ≡ true }
        ensures stay_met { (other : ℕ) → is_met self.old other ≡ true → is_met self.new other ≡ true }
        ensures stay_shared { (other : ℕ) → is_shared self.old other ≡ true → is_shared self.new other ≡ true }
    {
        let first = self.place_of(word);
        let place = if has_bit(&self.bits, first) {
            first + 1
        } else {
            first
        };
        set_bit(&mut self.bits, place);
    }

    // Whether the bucket of a word is shared.
    fn is_shared(&self, word: u64) -> bool
        ensures { result ≡ is_shared self.now word }
    {
        has_bit(&self.bits, self.place_of(word) + 1)
    }

    // The place of the first bit of a word's bucket. The factor spreads the words, whose parts are small numbers.
    fn place_of(&self, word: u64) -> usize
        ensures is { result ≡ 2 * bucket_of self.now.shift word }
        ensures within { result + 1 < 64 * length self.now.bits }
    {
        2 * (word.wrapping_mul(0x9E37_79B9_7F4A_7C15) >> self.shift) as usize
    }
}
