// The map of types to attributes, turned round.
ghost use Rattle.std.specs.Prelude.{◌≡◌, ◌≤◌, ◌<◌, ◌+◌, ◌-◌, [], IfOk, length};
ghost use Rattle.std.specs.List.{filter};
ghost use Rattle.pol_bitmap.specs.Nodes.{bits_of};
ghost use Rattle.pol_bitmap.specs.Sets.{IsSet, ShareBit};
ghost use Rattle.pol_expand.specs.Expansion.{expand_all, expansion_of, HaveRows, IsDeclared, IsTouching};
ghost use Rattle.pol_expand.specs.Inner.Inverting.{touches};

use crate::building::{has_value, sets_of};
use pol_bitmap::{BitmapView, Set};
use std::alloc::{AllocError, Global};
use std::marker::Model;

/// The map of types to attributes, turned round.
pub struct Inverse {
    attributes: Set,
    types: Set,
    sets: Vec<Set>,
}

// Its parts go in one call, wherever it is dropped.
impl Drop for Inverse {
    fn drop(self) {
        let Inverse {
            attributes,
            types,
            sets,
        } = self;
    }
}

impl Model for Inverse {
    ghost use Rattle.std.specs.Prelude.{length};
    ghost use Rattle.pol_expand.specs.Inner.Inverting.{Inversion, IsInversion, listed_all};

    ghost Value = { Inversion };

    ghost view = { λ m. record { expansions = listed_all m.attributes m.sets.items; attributes = m.attributes; types = m.types; count = length m.sets.items } };

    ghost invariant = { λ m. IsInversion m.sets.items m.attributes m.types };
}

impl Inverse {
    /// Turns the rows round, in one pass over them.
    pub fn build(
        alloc: Global,
        rows: &[BitmapView<'_>],
        attributes: &Set,
        types: &Set,
    ) -> Result<Inverse, AllocError>
        requires few { length rows.now ≤ 65535 }
        requires attributes { HaveRows rows.now attributes.now }
        requires types { HaveRows rows.now types.now }
        requires apart { ShareBit (bits_of attributes.now) (bits_of types.now) → ⊥ }
        ensures { IfOk result (λ m. m ≡ record { expansions = expand_all rows.now attributes.now types.now; attributes = attributes.now; types = types.now; count = length rows.now }) }
    {
        let sets = sets_of(alloc, rows, attributes, types)?;
        Ok(Inverse {
            attributes: attributes.share()?,
            types: types.share()?,
            sets,
        })
    }

    /// The place of a declared value, counted from 0.
    pub fn place_of(&self, value: u32) -> usize
        requires { IsDeclared self.now.attributes self.now.types value }
        ensures place { result + 1 ≡ value }
        ensures within { result < self.now.count }
        ensures few { self.now.count ≤ 65535 }
    {
        // the read shows the invariant: declared values are 1 to the number of the sets
        let _ = &self.sets;
        value as usize - 1
    }

    /// How many values there are.
    pub fn count(&self) -> usize
        ensures all { result ≡ self.now.count }
        ensures few { result ≤ 65535 }
    {
        self.sets.len()
    }

    /// What a declared value expands to. That of an attribute is shared, not copied.
    pub fn set_of(&self, alloc: Global, value: u32) -> Result<Set, AllocError>
        requires { IsDeclared self.now.attributes self.now.types value }
        ensures form { IfOk result IsSet }
        ensures bits { IfOk result (λ set. bits_of set ≡ expansion_of self.now.expansions value) }
    {
        if has_value(&self.attributes, value) {
            self.sets[self.place_of(value)].share()
        } else {
            Set::from_rising(alloc, &[value])
        }
    }

    /// The declared values whose expansion shares a type with the given ones.
    pub fn touching(&self, alloc: Global, given: &Set) -> Result<Set, AllocError>
        ensures { IfOk result (λ set. IsTouching self.now.expansions self.now.attributes self.now.types given.now (bits_of set)) }
    {
        let types = self.types.common(alloc, given)?;
        let values = self.touching_attributes(alloc, given)?;
        let attributes = Set::from_values(alloc, values)?;
        types.union(alloc, &attributes)
    }

    // The attributes that have one of the given types. No other value is looked at.
    fn touching_attributes(&self, alloc: Global, given: &Set) -> Result<Vec<u32>, AllocError>
        ensures { IfOk result (λ values. values.items ≡ filter (touches self.now.expansions self.now.attributes given.now) (bits_of self.now.attributes)) }
    {
        self.attributes
            .bits()
            .filter(|value| self.touches(*value, given))
            .collect(alloc)
    }

    // Whether a value is an attribute with one of the given types.
    fn touches(&self, value: u32, given: &Set) -> bool
        ensures { result ≡ touches self.now.expansions self.now.attributes given.now value }
    {
        has_value(&self.attributes, value) && self.sets[self.place_of(value)].meets(given)
    }
}
