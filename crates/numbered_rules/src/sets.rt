//! The sets of a pool, tested and put together.
ghost use Rattle.std.specs.Prelude.{◌≡◌, ◌<◌, IfOk, IfSome, length};
ghost use Rattle.std.specs.List.{All, flat_map};
ghost use Rattle.std.specs.Ordering.{nat_cmp};
ghost use Rattle.keyed_lists.specs.KeyOrder.{keys_in_order};
ghost use Rattle.pol_bitmap.specs.Nodes.{bits_of};
ghost use Rattle.pol_bitmap.specs.Sets.{IsSet};
ghost use Rattle.numbered_rules.specs.Forms.{bits_at};
ghost use Rattle.numbered_rules.specs.NumberedRules.{has};

use pol_bitmap::{Pool, Set};
use std::alloc::{AllocError, Global};

/// Whether the set of a number has a number.
pub(crate) fn has_number(pool: &Pool, set: u32, number: u32) -> bool
    requires { set < length pool.now }
    ensures { result ≡ has (bits_at pool.now set) number }
{
    set_has(pool.get(set), number)
}

/// Whether a set has a number.
pub(crate) fn set_has(set: &Set, number: u32) -> bool
    ensures { result ≡ has (bits_of set.now) number }
{
    set.has(number)
}

/// Whether the set of a number has a number that is asked of one set after the other.
#[derive(Clone, Copy)]
pub(crate) struct Known {
    set: u32,
    pub(crate) has: bool,
}

/// Whether the set of a number has a number, where it may be known of the set before.
pub(crate) fn known_of(pool: &Pool, known: Option<Known>, set: u32, number: u32) -> Known
    requires within { set < length pool.now }
    requires known { IfSome known (λ k. k.has ≡ has (bits_at pool.now k.set) number) }
    ensures set { result.set ≡ set }
    ensures has { result.has ≡ has (bits_at pool.now set) number }
{
    if let Some(known) = known {
        if known.set == set {
            return known;
        }
    }
    Known {
        set,
        has: has_number(pool, set, number),
    }
}

/// What the sets of some numbers have together.
pub(crate) fn union_of(alloc: Global, pool: &Pool, sets: &[u32]) -> Result<Set, AllocError>
    requires { All (λ set. set < length pool.now) sets.now }
    ensures form { IfOk result IsSet }
    ensures bits { IfOk result (λ union. bits_of union ≡ keys_in_order nat_cmp (flat_map (bits_at pool.now) sets.now)) }
{
    if sets.len() == 0 {
        return Set::empty(alloc);
    }
    let mut union = pool.get(sets[sets.len() - 1]).share()?;
    let mut left = sets.len() - 1;
    'sets: while left > 0 {
        left -= 1;
        union = pool.get(sets[left]).union(alloc, &union)?;
    }
    Ok(union)
}
