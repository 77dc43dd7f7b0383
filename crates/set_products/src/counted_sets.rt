ghost use Rattle.std.specs.Prelude.{◌≡◌, ◌<◌, ◌≤◌, ◌^◌, IfOk, Some, length, slice_get};
ghost use Rattle.pol_bitmap.specs.Sets.{IsSet};
ghost use Rattle.set_products.specs.Members.{bits_at};

use pol_bitmap::{Pool, Set};
use std::alloc::{AllocError, Global};
use std::marker::Model;

/// The sets of a pool, each of them counted once.
#[derive(Drop)]
pub struct CountedSets {
    pool: Pool,
    counts: Vec<u64>,
}

impl Model for CountedSets {
    ghost use Rattle.std.specs.Prelude.{List};
    ghost use Rattle.pol_bitmap.specs.declared.Node.{Node};
    ghost use Rattle.set_products.specs.Inner.SetCounts.{AreCounts};

    ghost Value = { List (List Node) };

    ghost view = { λ sets. sets.pool };

    ghost invariant = { λ sets. AreCounts sets.pool sets.counts.items };
}

impl CountedSets {
    /// The sets of a pool, by the same numbers. The nodes of each set are gone through once.
    pub fn new(alloc: Global, pool: Pool) -> Result<CountedSets, AllocError>
        ensures { IfOk result (λ sets. sets ≡ pool) }
    {
        let mut counts = Vec::with_capacity(alloc, pool.len() as usize)?;
        for n in 0..pool.len() {
            counts.push(pool.get(n).count())?;
        }
        Ok(CountedSets { pool, counts })
    }

    /// The set of a number.
    pub fn get(&self, n: u32) -> &Set
        requires { n < length self.now }
        ensures form { IsSet result.now }
        ensures set { slice_get self.now n ≡ Some result.now }
    {
        self.pool.get(n)
    }

    /// The number of bits of the set of a number. No set is gone through.
    pub fn count_of(&self, n: u32) -> u64
        requires { n < length self.now }
        ensures bits { result ≡ length (bits_at self.now n) }
        ensures bound { result ≤ 2 ^ 32 }
    {
        self.counts[n as usize]
    }
}
