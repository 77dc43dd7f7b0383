ghost use Rattle.std.specs.Prelude.{◌≡◌, ◌<◌, ◌++◌, ◌∷◌, [], ℕ, List, true, slice_index};
ghost use Rattle.pol_avtab.specs.Inner.DuplicateKeys.{hashed, finished, slot_of, place_in_slot, AreRising, Follows};

// libsepol's MAX_AVTAB_HASH_BUCKETS.
const SLOTS: u32 = 0x10_0000;

// More classes than policies have.
const CLASSES: u32 = 256;

/// What libsepol's hash begins with, for each of the first classes.
#[derive(Drop)]
pub struct ClassHashes {
    hashes: [u32; CLASSES as usize],
    ghost are_of_classes: { (class : ℕ) → class < 256 → slice_index hashes class ≡ hashed 0 class },
}

impl ClassHashes {
    /// What the hash begins with for the first 256 classes.
    pub fn new() -> ClassHashes {
        let mut hashes = [0; CLASSES as usize];
        for class in 0..CLASSES {
            hashes[class as usize] = hashed(0, class);
        }
        ClassHashes { hashes }
    }

    // The hash of a class alone.
    #[inline(always)]
    fn of(&self, class: u32) -> u32
        ensures { result ≡ hashed 0 class }
    {
        if class < CLASSES {
            self.hashes[class as usize]
        } else {
            hashed(0, class)
        }
    }
}

/// The last key, as a word, of a table that libsepol wrote (`avtab_write`): slot by slot of its hash, and in each by sources, targets
/// and classes. With it its slot, and the kinds of the rules that have its ends and class, as bits.
#[derive(Drop)]
pub struct LastKey {
    pub slot: u32,
    pub word: u64,
    pub kinds: u64,
}

impl LastKey {
    /// One that no key stands before.
    pub fn first() -> LastKey
        ensures { AreRising result [] }
    {
        LastKey {
            slot: 0,
            word: 0,
            kinds: 0,
        }
    }

    /// Whether the key of one more rule stands behind the last one and is none of those before. It is the last one from then on.
    #[inline(always)]
    pub fn follow(&mut self, hashes: &ClassHashes, word: u64) -> bool
        ensures { result ≡ true → Follows self.old word self.new }
    {
        let slot = slot_of(hashes, word);
        if slot > self.slot {
            self.slot = slot;
            self.word = word;
            self.kinds = word >> 48;
            return true;
        }
        slot == self.slot && self.follow_in_slot(word)
    }

    // The same of a key that has the slot of the last one.
    fn follow_in_slot(&mut self, word: u64) -> bool
        requires { slot_of word ≡ self.old.slot }
        ensures { result ≡ true → Follows self.old word self.new }
    {
        let place = place_in_slot(word);
        let last = place_in_slot(self.word);
        let kind = word >> 48;
        if place > last {
            self.word = word;
            self.kinds = kind;
            return true;
        }
        if place < last || self.kinds & kind == kind {
            return false;
        }
        self.kinds |= kind;
        true
    }
}

// The slot of a key in libsepol's table, one of the most that it has.
#[inline(always)]
#[tactic(auto, unfolding(crate::specs::Inner::DuplicateKeys::slot_of))]
fn slot_of(hashes: &ClassHashes, word: u64) -> u32
    ensures { result ≡ slot_of word }
{
    let source = (word % 0x1_0000) as u32;
    let target = (word / 0x1_0000 % 0x1_0000) as u32;
    let class = (word / 0x1_0000_0000 % 0x1_0000) as u32;
    let hash = hashed(hashed(hashes.of(class), target), source);
    finished(hash) % SLOTS
}

// The place of a key in its slot: its source, its target and the low bits of its class.
#[tactic(auto, unfolding(crate::specs::Inner::DuplicateKeys::place_in_slot))]
fn place_in_slot(word: u64) -> u64
    ensures { result ≡ place_in_slot word }
{
    let source = word % 0x1_0000;
    let target = word / 0x1_0000 % 0x1_0000;
    let class = word / 0x1_0000_0000 % 0x1000;
    0x1000 * (0x1_0000 * source + target) + class
}

// libsepol's hash with one more number (the macro `mix` of `avtab_hash`).
#[inline(always)]
#[tactic(auto, unfolding(crate::specs::Inner::DuplicateKeys::hashed))]
fn hashed(hash: u32, number: u32) -> u32
    ensures { result ≡ hashed hash number }
{
    let scrambled = number
        .wrapping_mul(0xCC9E_2D51)
        .rotate_left(15)
        .wrapping_mul(0x1B87_3593);
    let mixed = (hash ^ scrambled).rotate_left(13);
    mixed.wrapping_mul(5).wrapping_add(0xE654_6B64)
}

// libsepol's hash when all numbers are in it.
#[inline(always)]
#[tactic(auto, unfolding(crate::specs::Inner::DuplicateKeys::finished))]
fn finished(hash: u32) -> u32
    ensures { result ≡ finished hash }
{
    let once = (hash ^ hash >> 16).wrapping_mul(0x85EB_CA6B);
    let twice = (once ^ once >> 13).wrapping_mul(0xC2B2_AE35);
    twice ^ twice >> 16
}
