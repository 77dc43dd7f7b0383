//! A pool that keeps each set once, by its number.

ghost use Rattle.std.specs.Prelude.{◌≡◌, ◌<◌, [], length, slice_get, Some, IfOk, OnErr, List};
ghost use Rattle.pol_bitmap.specs.Kept.{IsNumberOf};

use crate::set::Set;
use indexmap::IndexSet;
use std::alloc::{AllocError, Global};
use std::marker::Model;

/// Sets by number, from 0 on, each kept once.
#[derive(Drop)]
pub struct Pool {
    sets: IndexSet<Set>,
}

impl Model for Pool {
    ghost use Rattle.std.specs.Prelude.{◌<◌, ◌^◌, List, length};
    ghost use Rattle.pol_bitmap.specs.declared.node.Node.{Node};

    ghost Value = { List (List Node) };

    ghost view = { λ p. p.sets.keys };

    ghost invariant = { λ p. length p.sets.keys < 2 ^ 32 };
}

impl Pool {
    /// The pool with no set.
    pub fn new(alloc: Global) -> Pool
        ensures { result ≡ [] }
    {
        Pool {
            sets: IndexSet::new(alloc),
        }
    }

    /// The number of distinct sets.
    pub fn len(&self) -> u32
        ensures { result ≡ length self.now }
    {
        self.sets.len() as u32
    }

    /// Keeps a set, unless an equal one is kept, and answers the number of the one that is kept.
    ///
    /// Numbers that were given before keep their sets. Out of memory, the set is dropped.
    pub fn put(&mut self, set: Set) -> Result<u32, AllocError>
        requires { length self.old < 4294967295 }
        ensures number { IfOk result (IsNumberOf self.old self.new set) }
        ensures err { OnErr result (self.new ≡ self.old) }
    {
        let (index, _) = self.sets.insert_full(set)?;
        Ok(index as u32)
    }

    /// The set of a number.
    pub fn get(&self, n: u32) -> &Set
        requires { n < length self.now }
        ensures { slice_get self.now n ≡ Some result.now }
    {
        &self.sets[n as usize]
    }
}
