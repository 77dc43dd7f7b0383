// The stored ends that hold a type, by its row in the map of types, and the types that stored ends expand to.
ghost use Rattle.std.specs.Prelude.{◌≡◌, ◌+◌, ◌≤◌, ◌||◌, ℕ, true, IfOk, OnOk};
ghost use Rattle.std.specs.List.{All, filter, list_any, range_with_len};
ghost use Rattle.pol_bitmap.specs.Nodes.{bits_of};
ghost use Rattle.pol_expand.specs.PolicyMap.{row_in, IsPolicyMap};
ghost use Rattle.value_groups.specs.Among.{is_among};
ghost use Rattle.pol_expand.specs.JoinedTypes.{holds_type};
ghost use Rattle.pol_expand.specs.Inner.StoredEnds.{IsEnd, is_attribute_bit};

use crate::ends_in_use::EndsInUse;
use crate::expansions::TypeMap;
use crate::flavours::is_flavour;
use crate::plain_types::is_type;
use pol_bitmap::Set;
use pol_datums::Flavour;
use pol_read::Policy;
use std::alloc::{AllocError, Global};
use value_groups::{DenseSet, Marked};

/// The types and attributes that rules have as their ends and that expand to a type among others: the type itself, and attributes of
/// its row.
pub fn ends_holding<E: EndsInUse>(
    alloc: Global,
    policy: &Policy<'_>,
    had: &E,
    node: u32,
) -> Result<Marked, AllocError>
    ensures count { IfOk result (λ ends. ends.count ≡ policy.now.symbols.types.nprim + 1) }
    ensures each { IfOk result (λ ends. (value : ℕ) → IsEnd policy.now value → E.has had.now value ≡ true → is_among ends.values value ≡ holds_type policy.now value node) }
    ensures within { IfOk result (λ ends. All (λ value. value ≤ policy.now.symbols.types.nprim) ends.values) }
{
    let mut ends = Marked::new(alloc, policy.type_count() as usize + 1)?;
    if !is_type(policy, node) {
        return Ok(ends);
    }
    ends.add(node)?;
    add_attributes(policy, had, node, &mut ends)?;
    // the clause of the values says that they are below the count
    let _ = ends.values();
    Ok(ends)
}

// Adds the attributes of the row of a type that rules have.
fn add_attributes<E: EndsInUse>(
    policy: &Policy<'_>,
    had: &E,
    node: u32,
    ends: &mut Marked,
) -> Result<(), AllocError>
    requires least { 1 ≤ node }
    requires most { node ≤ policy.now.symbols.types.nprim }
    requires count { ends.old.count ≡ policy.now.symbols.types.nprim + 1 }
    ensures count { ends.new.count ≡ ends.old.count }
    ensures each { OnOk result ((value : ℕ) → is_among ends.new.values value ≡ (is_among ends.old.values value || list_any (is_attribute_bit policy.now (E.has had.now) value) (bits_of (row_in policy.now node)))) }
{
    for bit in policy.row(node).bits() {
        add_attribute(policy, had, bit, ends)?;
    }
    Ok(())
}

// Adds the attribute that a bit stands for, if it stands for one that rules have.
fn add_attribute<E: EndsInUse>(
    policy: &Policy<'_>,
    had: &E,
    bit: u32,
    ends: &mut Marked,
) -> Result<(), AllocError>
    requires count { ends.old.count ≡ policy.now.symbols.types.nprim + 1 }
    ensures count { ends.new.count ≡ ends.old.count }
    ensures each { OnOk result ((value : ℕ) → is_among ends.new.values value ≡ (is_among ends.old.values value || is_attribute_bit policy.now (E.has had.now) value bit)) }
{
    if bit < policy.type_count()
        && had.has(bit + 1)
        && is_flavour(Flavour::Attribute, policy.symbols().flavour(bit + 1))
    {
        ends.add(bit + 1)?;
    }
    Ok(())
}

/// The types that ends expand to. Those of one end are shared, not copied.
pub fn types_of(
    alloc: Global,
    policy: &Policy<'_>,
    types: &TypeMap,
    ends: &[u32],
) -> Result<Set, AllocError>
    requires map { IsPolicyMap policy.now types.now }
    requires ends { All (IsEnd policy.now) ends.now }
    ensures { IfOk result (λ set. bits_of set ≡ filter (λ type. list_any (λ end. holds_type policy.now end type) ends.now) (range_with_len 1 policy.now.symbols.types.nprim)) }
{
    if ends.len() == 1 {
        return types.expansion(alloc, ends[0]);
    }
    types_of_all(alloc, policy, types, ends)
}

// The types that many ends expand to, gathered in one set.
fn types_of_all(
    alloc: Global,
    policy: &Policy<'_>,
    types: &TypeMap,
    ends: &[u32],
) -> Result<Set, AllocError>
    requires map { IsPolicyMap policy.now types.now }
    requires ends { All (IsEnd policy.now) ends.now }
    ensures { IfOk result (λ set. bits_of set ≡ filter (λ type. list_any (λ end. holds_type policy.now end type) ends.now) (range_with_len 1 policy.now.symbols.types.nprim)) }
{
    let mut found = DenseSet::new(alloc, policy.type_count() as usize + 1)?;
    for end in ends {
        add_types(alloc, policy, types, *end, &mut found)?;
    }
    found.to_set(alloc)
}

// Adds the types that an end expands to.
fn add_types(
    alloc: Global,
    policy: &Policy<'_>,
    types: &TypeMap,
    end: u32,
    found: &mut DenseSet,
) -> Result<(), AllocError>
    requires map { IsPolicyMap policy.now types.now }
    requires end { IsEnd policy.now end }
    requires count { found.old.count ≡ policy.now.symbols.types.nprim + 1 }
    ensures count { found.new.count ≡ found.old.count }
    ensures each { OnOk result ((type : ℕ) → is_among found.new.values type ≡ (is_among found.old.values type || holds_type policy.now end type)) }
{
    if is_type(policy, end) {
        found.add(end);
        return Ok(());
    }
    let members = types.expansion(alloc, end)?;
    found.add_set(&members);
    Ok(())
}

/// The values of a set, rising.
pub fn values_in(alloc: Global, set: &Set) -> Result<Vec<u32>, AllocError>
    ensures { IfOk result (λ values. values.items ≡ bits_of set.now) }
{
    set.bits().collect(alloc)
}
