// The types of a policy, and no attributes.
ghost use Rattle.std.specs.Prelude.{◌≡◌, IfOk};
ghost use Rattle.pol_bitmap.specs.Nodes.{bits_of};
ghost use Rattle.pol_expand.specs.PlainTypes.{are_two_types, is_type_outside, is_type_value, types_outside};

use crate::flavours::is_flavour;
use pol_bitmap::Set;
use pol_datums::Flavour;
use pol_read::Policy;
use std::alloc::{AllocError, Global};

/// Whether a value is that of a type, and of no attribute.
pub fn is_type(policy: &Policy<'_>, value: u32) -> bool
    ensures { result ≡ is_type_value policy.now value }
{
    1 <= value
        && value <= policy.type_count()
        && is_flavour(Flavour::Plain, policy.symbols().flavour(value))
}

/// Whether two values are those of different types, and of no attributes.
pub fn are_two_types(policy: &Policy<'_>, a: u32, b: u32) -> bool
    ensures { result ≡ are_two_types policy.now a b }
{
    is_type(policy, a) && is_type(policy, b) && a != b
}

/// The types that are not in a set.
pub fn types_outside(alloc: Global, policy: &Policy<'_>, excluded: &Set) -> Result<Set, AllocError>
    ensures { IfOk result (λ set. bits_of set ≡ types_outside policy.now excluded.now) }
{
    let values = values_outside(alloc, policy, excluded)?;
    Set::from_rising(alloc, &values)
}

// Their values, rising.
#[tactic(auto, unfolding(crate::specs::PlainTypes::types_outside))]
fn values_outside(
    alloc: Global,
    policy: &Policy<'_>,
    excluded: &Set,
) -> Result<Vec<u32>, AllocError>
    ensures { IfOk result (λ values. values.items ≡ types_outside policy.now excluded.now) }
{
    (1..policy.type_count() + 1)
        .filter(|value| is_outside(policy, excluded, *value))
        .collect(alloc)
}

// Whether a value is that of a type that is not in a set.
fn is_outside(policy: &Policy<'_>, excluded: &Set, value: u32) -> bool
    ensures { result ≡ is_type_outside policy.now excluded.now value }
{
    is_type(policy, value) && !excluded.has(value)
}
