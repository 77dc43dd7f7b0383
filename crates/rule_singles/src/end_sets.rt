// The sets of types that the ends of rules stand for.
ghost use Rattle.std.specs.Prelude.{◌≡◌, ◌<◌, ℕ, IfOk, Some, None, length, option_map, slice_index_or};
ghost use Rattle.std.specs.List.{filter};
ghost use Rattle.pol_fields.specs.declared.TableKind.TheVariants.{Types};
ghost use Rattle.pol_bitmap.specs.Nodes.{bits_of};
ghost use Rattle.pol_expand.specs.PolicyMap.{IsPolicyMap, expand};
ghost use Rattle.pol_read.specs.DeclaredRules.{IsDeclaredIn};
ghost use Rattle.rule_query.specs.Queries.{AreTypesOf};
ghost use Rattle.rule_singles.specs.Inner.EndSets.{AreAsked, AreSetsOf, Grows, IsNumberIn, ends_left, leaves};

use crate::asked_types::{cut, types_left};
use crate::keeping::{keep, no_numbers};
use pol_bitmap::{Pool, Set};
use pol_expand::TypeMap;
use pol_fields::TableKind;
use pol_read::Policy;
use rule_criteria::Criterion;
use std::alloc::{AllocError, Global};

/// What the sources, or the targets, of rules stand for, as sets of a pool. That of a type or an attribute is made when it is first
/// asked for.
#[derive(Drop)]
pub struct EndSets {
    pub left: Option<Set>,
    pub numbers: Vec<Option<u32>>,
}

impl EndSets {
    /// The ends by a criterion and by the types that meet it. No set is made yet.
    pub fn new(
        alloc: Global,
        policy: &Policy<'_>,
        criterion: &Option<Criterion>,
        met: Option<&Set>,
    ) -> Result<EndSets, AllocError>
        requires { AreTypesOf policy.now criterion.now (option_map (λ set. set.now) met) }
        ensures asked { IfOk result (λ ends. AreAsked policy.now criterion.now ends.left) }
        ensures none { IfOk result (λ ends. (value : ℕ) → slice_index_or ends.numbers.items value None ≡ None) }
    {
        Ok(EndSets {
            left: types_left(criterion, met)?,
            numbers: no_numbers(alloc, policy.type_count() as usize + 1)?,
        })
    }

    /// The number of the set of an end of that table.
    pub fn number_of(
        &mut self,
        alloc: Global,
        policy: &Policy<'_>,
        types: &TypeMap,
        table: TableKind,
        value: u32,
        pool: &mut Pool,
    ) -> Result<u32, AllocError>
        requires map { IsPolicyMap policy.now types.now }
        requires declared { table ≡ Types → IsDeclaredIn policy.now.symbols Types value }
        requires right { AreSetsOf policy.now self.old.left pool.old self.old.numbers.items }
        requires room { length pool.old < 4294967295 }
        ensures left { self.new.left ≡ self.old.left }
        ensures grows { Grows 1 pool.old pool.new }
        ensures right { AreSetsOf policy.now self.new.left pool.new self.new.numbers.items }
        ensures number { IfOk result (IsNumberIn pool.new (ends_left policy.now self.old.left table value)) }
    {
        match table {
            TableKind::Types => self.type_number(alloc, policy, types, value, pool),
            _ => keep(pool, Set::from_rising(alloc, &[value])?),
        }
    }
}

impl EndSets {
    // The number of the set of a type or an attribute.
    fn type_number(
        &mut self,
        alloc: Global,
        policy: &Policy<'_>,
        types: &TypeMap,
        value: u32,
        pool: &mut Pool,
    ) -> Result<u32, AllocError>
        requires map { IsPolicyMap policy.now types.now }
        requires declared { IsDeclaredIn policy.now.symbols Types value }
        requires right { AreSetsOf policy.now self.old.left pool.old self.old.numbers.items }
        requires room { length pool.old < 4294967295 }
        ensures left { self.new.left ≡ self.old.left }
        ensures grows { Grows 1 pool.old pool.new }
        ensures right { AreSetsOf policy.now self.new.left pool.new self.new.numbers.items }
        ensures number { IfOk result (IsNumberIn pool.new (filter (leaves self.old.left) (expand policy.now value))) }
    {
        if let Some(number) = known(&self.numbers, value) {
            return Ok(number);
        }
        let set = expansion_left(alloc, policy, types, value, &self.left)?;
        let number = keep(pool, set)?;
        note(&mut self.numbers, value, number);
        Ok(number)
    }
}

// What a type or an attribute expands to, so far as it is left.
fn expansion_left(
    alloc: Global,
    policy: &Policy<'_>,
    types: &TypeMap,
    value: u32,
    left: &Option<Set>,
) -> Result<Set, AllocError>
    requires map { IsPolicyMap policy.now types.now }
    requires declared { IsDeclaredIn policy.now.symbols Types value }
    ensures { IfOk result (λ set. bits_of set ≡ filter (leaves left.now) (expand policy.now value)) }
{
    // the clause says that the policy was accepted, so that its declared types have values of their own
    policy.is_accepted();
    let set = types.expansion(alloc, value)?;
    cut(alloc, set, left)
}

// The number that is known for a value, if one is.
fn known(numbers: &[Option<u32>], value: u32) -> Option<u32>
    ensures { result ≡ slice_index_or numbers.now value None }
{
    let place = value as usize;
    if place < numbers.len() {
        numbers[place]
    } else {
        None
    }
}

// Notes the number of a value, where there is a place for it.
fn note(numbers: &mut Vec<Option<u32>>, value: u32, number: u32)
    ensures same { (other : ℕ) → (other ≡ value → ⊥) → slice_index_or numbers.new.items other None ≡ slice_index_or numbers.old.items other None }
    ensures noted { (n : ℕ) → slice_index_or numbers.new.items value None ≡ Some n → n ≡ number }
{
    let place = value as usize;
    if place < numbers.len() {
        numbers[place] = Some(number);
    }
}
