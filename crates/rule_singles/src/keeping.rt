// Sets that are kept in a pool.
ghost use Rattle.std.specs.Prelude.{◌≡◌, ◌<◌, ℕ, IfOk, None, length, slice_index_or};
ghost use Rattle.pol_bitmap.specs.Nodes.{bits_of};
ghost use Rattle.rule_singles.specs.Inner.EndSets.{Grows, IsNumberIn};

use pol_bitmap::{Pool, Set};
use std::alloc::{AllocError, Global};

/// The number of a set in a pool, which keeps it if it has no equal one.
pub fn keep(pool: &mut Pool, set: Set) -> Result<u32, AllocError>
    requires { length pool.old < 4294967295 }
    ensures grows { Grows 1 pool.old pool.new }
    ensures number { IfOk result (IsNumberIn pool.new (bits_of set)) }
{
    pool.put(set)
}

/// As many values of which no number is known.
pub fn no_numbers(alloc: Global, count: usize) -> Result<Vec<Option<u32>>, AllocError>
    ensures { IfOk result (λ numbers. (k : ℕ) → slice_index_or numbers.items k None ≡ None) }
{
    let mut numbers = Vec::with_capacity(alloc, count)?;
    for _ in 0..count {
        numbers.push(None)?;
    }
    Ok(numbers)
}
