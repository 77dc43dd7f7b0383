// What values expand to, with numbers for the sets that were asked for.
ghost use Rattle.std.specs.Prelude.{◌≡◌, ◌≤◌, ◌<◌, ◌+◌, ℕ, [], None, IfOk, OnErr, length, take, slice_index_or};
ghost use Rattle.pol_bitmap.specs.Nodes.{bits_of};
ghost use Rattle.pol_bitmap.specs.Sets.{IsSet, ShareBit};
ghost use Rattle.pol_bitmap.specs.Kept.{IsNumberOf};
ghost use Rattle.pol_expand.specs.Expansion.{expand_all, expansion_of, HaveRows, IsDeclared, IsNumberOfBits, IsTouching};

use crate::inverse::Inverse;
use pol_bitmap::{BitmapView, Pool, Set};
use std::alloc::{AllocError, Global};
use std::marker::Model;

/// What the types and attributes of a policy expand to, by values: an attribute to the declared types that have it, a type to
/// itself. Expansions get numbers in a pool, each when it is first asked for.
pub struct TypeMap {
    inverse: Inverse,
    numbers: Vec<Option<u32>>,
    pool: Pool,
    kept: u32,
}

// Its parts go in one call, wherever it is dropped.
impl Drop for TypeMap {
    fn drop(self) {
        let TypeMap {
            inverse,
            numbers,
            pool,
            kept,
        } = self;
    }
}

impl Model for TypeMap {
    ghost use Rattle.pol_expand.specs.Expansion.{Expansions};
    ghost use Rattle.pol_expand.specs.Inner.Inverting.{AreNumbers};

    ghost Value = { Expansions };

    ghost view = { λ m. record { expansions = m.inverse.expansions; attributes = m.inverse.attributes; types = m.inverse.types; sets = m.pool; kept = m.kept } };

    ghost invariant = { λ m. AreNumbers m.inverse.expansions m.numbers.items m.pool m.kept m.inverse.count };
}

impl TypeMap {
    /// The map with a row for each value, from 1 on, and the declared values. It goes through the rows once.
    pub fn build(
        alloc: Global,
        rows: &[BitmapView<'_>],
        attributes: &Set,
        types: &Set,
    ) -> Result<TypeMap, AllocError>
        requires few { length rows.now ≤ 65535 }
        requires attributes { HaveRows rows.now attributes.now }
        requires types { HaveRows rows.now types.now }
        requires apart { ShareBit (bits_of attributes.now) (bits_of types.now) → ⊥ }
        ensures { IfOk result (λ m. m ≡ record { expansions = expand_all rows.now attributes.now types.now; attributes = attributes.now; types = types.now; sets = []; kept = 0 }) }
    {
        let inverse = Inverse::build(alloc, rows, attributes, types)?;
        let numbers = no_numbers(alloc, inverse.count())?;
        Ok(TypeMap {
            inverse,
            numbers,
            pool: Pool::new(alloc),
            kept: 0,
        })
    }

    /// The number of the set that a declared value expands to.
    ///
    /// It is made at the first call for the value. Numbers that were given before keep their sets.
    pub fn members(&mut self, alloc: Global, value: u32) -> Result<u32, AllocError>
        requires { IsDeclared self.old.attributes self.old.types value }
        ensures number { IfOk result (IsNumberOfBits self.old.sets self.new.sets (expansion_of self.old.expansions value)) }
        ensures there { IfOk result (λ n. n < length self.new.sets) }
        ensures stays { take (length self.old.sets) self.new.sets ≡ self.old.sets }
        ensures same { self.new ≡ record self.old { sets = self.new.sets } }
        ensures bound { length self.new.sets ≤ self.new.kept + 65535 }
        ensures err { OnErr result (self.new ≡ self.old) }
    {
        let place = self.inverse.place_of(value);
        match self.numbers[place] {
            Some(number) => return Ok(number),
            None => {}
        }
        let set = self.inverse.set_of(alloc, value)?;
        let number = self.pool.put(set)?;
        self.numbers[place] = Some(number);
        Ok(number)
    }

    /// The set that a declared value expands to. That of an attribute is shared, and that of a type is made anew.
    pub fn expansion(&self, alloc: Global, value: u32) -> Result<Set, AllocError>
        requires { IsDeclared self.now.attributes self.now.types value }
        ensures form { IfOk result IsSet }
        ensures bits { IfOk result (λ set. bits_of set ≡ expansion_of self.now.expansions value) }
    {
        self.inverse.set_of(alloc, value)
    }

    /// Keeps a set, unless an equal one is kept, and answers the number of the one that is kept.
    ///
    /// Numbers that were given before keep their sets. Out of memory, the set is dropped.
    pub fn keep(&mut self, set: Set) -> Result<u32, AllocError>
        requires { length self.old.sets < 4294900000 }
        ensures number { IfOk result (IsNumberOf self.old.sets self.new.sets set) }
        ensures there { IfOk result (λ n. n < length self.new.sets) }
        ensures stays { take (length self.old.sets) self.new.sets ≡ self.old.sets }
        ensures same { self.new ≡ record self.old { sets = self.new.sets; kept = self.new.kept } }
        ensures kept { self.new.kept + length self.old.sets ≡ self.old.kept + length self.new.sets }
        ensures err { OnErr result (self.new ≡ self.old) }
    {
        let before = self.pool.len();
        let number = self.pool.put(set)?;
        self.kept += self.pool.len() - before;
        Ok(number)
    }

    /// The sets by number. No more are there than those that were kept, and 65,535 besides.
    pub fn pool(&self) -> &Pool
        ensures sets { result.now ≡ self.now.sets }
        ensures bound { length self.now.sets ≤ self.now.kept + 65535 }
    {
        // the count's clause bounds the number of expansions
        let _ = self.inverse.count();
        &self.pool
    }

    /// The declared values whose expansion shares a type with the given ones: the types among these, and the attributes that
    /// one of them has.
    pub fn touching(&self, alloc: Global, types: &Set) -> Result<Set, AllocError>
        ensures { IfOk result (λ set. IsTouching self.now.expansions self.now.attributes self.now.types types.now (bits_of set)) }
    {
        self.inverse.touching(alloc, types)
    }
}

// As many places for numbers.
fn no_numbers(alloc: Global, count: usize) -> Result<Vec<Option<u32>>, AllocError>
    ensures count { IfOk result (λ numbers. length numbers.items ≡ count) }
    ensures none { IfOk result (λ numbers. (k : ℕ) → slice_index_or numbers.items k None ≡ None) }
{
    let mut numbers = Vec::with_capacity(alloc, count)?;
    for _ in 0..count {
        numbers.push(None)?;
    }
    Ok(numbers)
}
