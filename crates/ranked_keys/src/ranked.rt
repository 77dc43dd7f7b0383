//! Keys in order, each once, with their ranks.

ghost use Rattle.std.specs.Prelude.{◌≡◌, ◌+◌, ◌<◌, ◌^◌, Some, IfOk, OnOk, IfNone, MatchOption, length, slice_get, map};
ghost use Rattle.keyed_lists.specs.KeyOrder.{keys_in_order, place_in};
ghost use Rattle.ranked_keys.specs.Ranks.{rank_among, with_keys};
ghost use Rattle.keyed_lists.proofs.Rising.{Rises};

use std::alloc::{AllocError, Global};
use std::collections::BTreeSet;
use std::marker::Model;

/// Keys in order, each once. The rank of a key is its place, from 0 on. Contracts see the list of the keys.
#[derive(Drop)]
pub struct RankedKeys<K: Ord> {
    keys: Vec<K>,
}

impl<K: Ord> Model for RankedKeys<K> {
    ghost use Rattle.std.specs.Prelude.{List};
    ghost use Rattle.ranked_keys.specs.Ranks.{AreRanked};

    ghost Value = { List K };

    ghost view = { λ ranked. ranked.keys.items };

    ghost invariant = { λ ranked. AreRanked K.cmp ranked.keys.items };
}

impl<K: Ord + Drop> RankedKeys<K> {
    /// The keys of a list, ranked. More than ranks can number are more than memory holds.
    pub fn new(alloc: Global, keys: Vec<K>) -> Result<RankedKeys<K>, AllocError>
        ensures { IfOk result (λ ranked. ranked ≡ keys_in_order K.cmp keys.items) }
    {
        few_ranked(in_order(alloc, keys)?)
    }

    /// How many keys there are.
    pub fn len(&self) -> u32
        ensures { result ≡ length self.now }
    {
        self.keys.len() as u32
    }

    /// The key of a rank.
    pub fn key(&self, rank: u32) -> &K
        requires { rank < length self.now }
        ensures { slice_get self.now rank ≡ Some result.now }
    {
        &self.keys[rank as usize]
    }

    /// The rank of a key, if it is there, found by halves.
    pub fn rank(&self, key: &K) -> Option<u32>
        ensures { result ≡ place_in K.cmp self.now key.now }
    {
        match self.keys.binary_search(key) {
            Ok(place) => Some(place as u32),
            Err(_) => None,
        }
    }

    /// The rank of a key, and the first one where it is not there.
    pub fn rank_or_first(&self, key: &K) -> u32
        ensures { result ≡ rank_among K.cmp self.now key.now }
    {
        self.rank(key).unwrap_or(0)
    }

    /// The number behind the rank of a key, where 0 is left to none.
    pub fn number(&self, key: &K) -> u32
        ensures { result ≡ rank_among K.cmp self.now key.now + 1 }
    {
        match self.keys.binary_search(key) {
            Ok(place) => place as u32 + 1,
            Err(_) => 1,
        }
    }

    /// The ranks of keys, one by one.
    pub fn ranks(&self, alloc: Global, keys: &[K]) -> Result<Vec<u32>, AllocError>
        ensures { IfOk result (λ ranks. ranks.items ≡ map (rank_among K.cmp self.now) keys.now) }
    {
        keys.iter()
            .map(|key| self.rank_or_first(key))
            .collect(alloc)
    }

    /// The numbers behind the ranks of keys, one by one.
    pub fn numbers(&self, alloc: Global, keys: &[K]) -> Result<Vec<u32>, AllocError>
        ensures { IfOk result (λ numbers. numbers.items ≡ map (λ key. rank_among K.cmp self.now key + 1) keys.now) }
    {
        keys.iter().map(|key| self.number(key)).collect(alloc)
    }
}

// The keys, if ranks can number them.
fn few_ranked<K: Ord + Drop>(keys: Vec<K>) -> Result<RankedKeys<K>, AllocError>
    requires { Rises K.cmp keys.items }
    ensures { IfOk result (λ ranked. ranked ≡ keys.items) }
{
    if keys.len() < u32::MAX as usize {
        Ok(RankedKeys { keys })
    } else {
        Err(AllocError)
    }
}

/// The keys of a list in order, each once.
pub fn in_order<K: Ord + Drop>(alloc: Global, keys: Vec<K>) -> Result<Vec<K>, AllocError>
    ensures { IfOk result (λ ordered. ordered.items ≡ keys_in_order K.cmp keys.items) }
{
    let mut all = BTreeSet::new(alloc);
    add_keys(&mut all, keys)?;
    keys_of(alloc, all)
}

// The keys of a set, in order.
fn keys_of<K: Ord + Drop>(alloc: Global, all: BTreeSet<K>) -> Result<Vec<K>, AllocError>
    ensures { IfOk result (λ keys. keys.items ≡ all.keys) }
{
    all.into_iter().collect(alloc)
}

// Adds the keys of a list, from the last to the first.
fn add_keys<K: Ord + Drop>(all: &mut BTreeSet<K>, keys: Vec<K>) -> Result<(), AllocError>
    ensures { OnOk result (all.new.keys ≡ with_keys K.cmp keys.items all.old.keys) }
{
    let mut keys = keys;
    'keys: while let Some(key) = keys.pop() {
        all.insert(key)?;
    }
    Ok(())
}
