// The map of a policy.
ghost use Rattle.std.specs.Prelude.{◌≡◌, ◌≤◌, IfOk, length};
ghost use Rattle.pol_bitmap.specs.Nodes.{bits_of};
ghost use Rattle.pol_expand.specs.PolicyMap.{IsPolicyMap, HasNoSets, rows_of, values_of_flavour};

use crate::expansions::TypeMap;
use crate::flavours::is_flavour;
use pol_bitmap::{BitmapView, Set};
use pol_datums::Flavour;
use pol_fields::TableKind;
use pol_read::Policy;
use pol_symbols::Symbols;
use std::alloc::{AllocError, Global};

/// What the types and attributes of a policy expand to. It goes through the rows of the type map once.
pub fn type_map(alloc: Global, policy: &Policy<'_>) -> Result<TypeMap, AllocError>
    ensures map { IfOk result (IsPolicyMap policy.now) }
    ensures none { IfOk result HasNoSets }
{
    let symbols = policy.symbols();
    let rows = rows(alloc, policy)?;
    let attributes = flavoured_set(alloc, symbols, Flavour::Attribute)?;
    let types = flavoured_set(alloc, symbols, Flavour::Plain)?;
    TypeMap::build(alloc, &rows, &attributes, &types)
}

// The rows of the map, that of the type value 1 first.
#[tactic(auto, unfolding(crate::specs::PolicyMap::rows_of))]
fn rows<'a>(alloc: Global, policy: &Policy<'a>) -> Result<Vec<BitmapView<'a>>, AllocError>
    ensures rows { IfOk result (λ rows. rows.items ≡ rows_of policy.now) }
    ensures few { IfOk result (λ rows. length rows.items ≤ 65535) }
{
    let mut rows = Vec::new(alloc);
    for i in 0..policy.type_count() {
        rows.push(policy.row(i + 1))?;
    }
    Ok(rows)
}

// The set of the type values that are declared with a flavour.
#[tactic(auto, using(crate::proofs::PolicyMaps::flavour_rises))]
fn flavoured_set(alloc: Global, symbols: &Symbols<'_>, flavour: Flavour) -> Result<Set, AllocError>
    ensures { IfOk result (λ set. bits_of set ≡ values_of_flavour symbols.now flavour) }
{
    let values = flavoured_values(alloc, symbols, flavour)?;
    Set::from_rising(alloc, &values)
}

// The type values that are declared with a flavour, rising.
#[tactic(auto, unfolding(crate::specs::PolicyMap::values_of_flavour))]
fn flavoured_values(
    alloc: Global,
    symbols: &Symbols<'_>,
    flavour: Flavour,
) -> Result<Vec<u32>, AllocError>
    ensures { IfOk result (λ values. values.items ≡ values_of_flavour symbols.now flavour) }
{
    let mut values = Vec::new(alloc);
    for i in 0..symbols.prims(TableKind::Types) {
        if is_flavour(flavour, symbols.flavour(i + 1)) {
            values.push(i + 1)?;
        }
    }
    Ok(values)
}
