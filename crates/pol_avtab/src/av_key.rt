ghost use Rattle.std.specs.Prelude.{◌≡◌};
ghost use Rattle.std.proofs.Common.{rules};
ghost use Rattle.std.specs.Cmp.Rules.{hashing};
ghost use Rattle.std.specs.Hash as fed;
ghost use Rattle.pol_avtab.specs.AvKeys.{word_of};

use std::hash::{Hash, Hasher};

/// What tells one rule of a table from another.
#[derive(Clone, Copy, Debug, PartialEq, Eq)]
pub struct AvKey {
    /// The value of a type or an attribute.
    pub source: u16,
    /// The value of a type or an attribute.
    pub target: u16,
    /// The value of a class.
    pub class: u16,
    /// The kind of the rule, one of [`codes`](crate::codes), without the mark `AVTAB_ENABLED`.
    pub specified: u16,
}

impl AvKey {
    /// Its four numbers in one.
    pub(crate) fn word(self) -> u64
        ensures { result ≡ word_of self }
    {
        let high = self.class as u64 + 0x10000 * self.specified as u64;
        self.source as u64 + 0x10000 * (self.target as u64 + 0x10000 * high)
    }
}

// The four numbers are hashed as one word, which is one step in place of four.
impl Hash for AvKey {
    ghost hash_input = { λ key. fed.u64 (word_of key) };

    ghost respects_eq = { Prim.search (hashing, rules) };

    fn hash<H: Hasher>(&self, state: &mut H) {
        state.write_u64(self.word());
    }
}
