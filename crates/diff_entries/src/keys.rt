//! Keys of entries.

ghost use Rattle.std.specs.Prelude.{◌≡◌, ◌∷◌, [], ◌++◌, ℕ, List, IfOk, OnOk};
ghost use Rattle.std.proofs.Common.{rules};
ghost use Rattle.std.specs.Cmp.{partial_order_from_own_ties};
ghost use Rattle.std.specs.Cmp.Rules.{comparing};
ghost use Rattle.std.specs.Ordering.{as_partial_cmp, eq_by_cmp, nat_cmp};
ghost use Rattle.std.specs.Cmp.Lexicographic.{slice_cmp};
ghost use Rattle.std.proofs.lemmas.Cmp.{eq_by_cmp_equiv, lists_total, nat_list_cmp_total};

use std::alloc::{AllocError, Global};
use std::cmp::Ordering;
use std::marker::Model;

/// A text or other bytes, compared byte by byte. Contracts see the list of them.
#[derive(Drop)]
pub struct Text {
    bytes: Vec<u8>,
}

impl Model for Text {
    ghost use Rattle.std.specs.Prelude.{ℕ, List};

    ghost Value = { List ℕ };

    ghost view = { λ text. text.bytes.items };
}

impl PartialEq for Text {
    ghost eq = { eq_by_cmp (slice_cmp nat_cmp) };

    ghost laws = { Prim.search (comparing, rules) };

    fn eq(&self, other: &Text) -> bool {
        self.cmp(other).is_eq()
    }
}

impl Eq for Text {
    ghost laws = { eq_by_cmp_equiv nat_list_cmp_total };
}

impl Ord for Text {
    ghost cmp = { slice_cmp nat_cmp };

    ghost total = { nat_list_cmp_total };

    ghost matches_partial_cmp = { Prim.search (comparing, rules) };

    ghost matches_eq = { Prim.search (comparing, rules) };

    fn cmp(&self, other: &Text) -> Ordering {
        self.bytes.cmp(&other.bytes)
    }
}

impl PartialOrd for Text {
    ghost partial_cmp = { as_partial_cmp (slice_cmp nat_cmp) };

    ghost laws = { partial_order_from_own_ties (Prim.search (comparing, rules)) (Prim.search (comparing, rules)) };

    fn partial_cmp(&self, other: &Text) -> Option<Ordering> {
        Some(self.cmp(other))
    }
}

impl Text {
    /// The text of these bytes.
    pub fn new(bytes: Vec<u8>) -> Text
        ensures { result ≡ bytes.items }
    {
        Text { bytes }
    }

    /// Its bytes.
    pub fn bytes(&self) -> &[u8]
        ensures { result.now ≡ self.now }
    {
        &self.bytes
    }
}

/// The key of an entry: texts or other bytes, compared one after the other. Contracts see the list of them.
#[derive(Drop)]
pub struct Key {
    elements: Vec<Text>,
}

impl Model for Key {
    ghost use Rattle.std.specs.Prelude.{ℕ, List};

    ghost Value = { List (List ℕ) };

    ghost view = { λ key. key.elements.items };
}

impl PartialEq for Key {
    ghost eq = { eq_by_cmp (slice_cmp (slice_cmp nat_cmp)) };

    ghost laws = { Prim.search (comparing, rules) };

    fn eq(&self, other: &Key) -> bool {
        self.cmp(other).is_eq()
    }
}

impl Eq for Key {
    ghost laws = { eq_by_cmp_equiv (lists_total nat_list_cmp_total) };
}

impl Ord for Key {
    ghost cmp = { slice_cmp (slice_cmp nat_cmp) };

    ghost total = { lists_total nat_list_cmp_total };

    ghost matches_partial_cmp = { Prim.search (comparing, rules) };

    ghost matches_eq = { Prim.search (comparing, rules) };

    fn cmp(&self, other: &Key) -> Ordering {
        self.elements.cmp(&other.elements)
    }
}

impl PartialOrd for Key {
    ghost partial_cmp = { as_partial_cmp (slice_cmp (slice_cmp nat_cmp)) };

    ghost laws = { partial_order_from_own_ties (Prim.search (comparing, rules)) (Prim.search (comparing, rules)) };

    fn partial_cmp(&self, other: &Key) -> Option<Ordering> {
        Some(self.cmp(other))
    }
}

impl Key {
    /// A key of no element yet.
    pub fn new(alloc: Global) -> Key
        ensures { result ≡ [] }
    {
        Key {
            elements: Vec::new(alloc),
        }
    }

    /// Adds an element.
    pub fn push(&mut self, bytes: Vec<u8>) -> Result<(), AllocError>
        ensures { OnOk result (self.new ≡ self.old ++ bytes.items ∷ []) }
    {
        self.elements.push(Text::new(bytes))?;
        Ok(())
    }

    /// The key that is a name alone.
    pub fn of_name(alloc: Global, name: &[u8]) -> Result<Key, AllocError>
        ensures { IfOk result (λ key. key ≡ name.now ∷ []) }
    {
        let mut key = Key::new(alloc);
        key.push(Vec::from_slice(alloc, name)?)?;
        Ok(key)
    }
}
