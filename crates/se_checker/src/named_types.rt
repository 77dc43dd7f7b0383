// The types that the names of a list stand for.
ghost use Rattle.std.specs.Prelude.{◌≡◌, ◌+◌, ◌||◌, ℕ, IfOk, OnOk};
ghost use Rattle.pol_fields.specs.declared.TableKind.TheVariants.{Types};
ghost use Rattle.pol_bitmap.specs.Nodes.{bits_of};
ghost use Rattle.pol_symbols.specs.PolicySymbols.{value_in};
ghost use Rattle.pol_expand.specs.PolicyMap.{IsPolicyMap};
ghost use Rattle.text_rows.specs.TextLines.{fields_in};
ghost use Rattle.value_groups.specs.Among.{is_among};
ghost use Rattle.se_checker.specs.Members.{members, value_holds};

use pol_bitmap::Set;
use pol_datums::Flavour;
use pol_expand::{TypeMap, is_flavour};
use pol_fields::TableKind;
use pol_read::Policy;
use std::alloc::{AllocError, Global};
use text_rows::first_field;
use value_groups::DenseSet;

/// The types that names expand to. A name that the policy lacks expands to none.
pub fn members(
    alloc: Global,
    policy: &Policy<'_>,
    types: &TypeMap,
    names: &[u8],
) -> Result<Set, AllocError>
    requires { IsPolicyMap policy.now types.now }
    ensures { IfOk result (λ set. bits_of set ≡ members policy.now (fields_in names.now)) }
{
    // the policy was accepted, and so its types have values within their table
    policy.is_accepted();
    let mut found = DenseSet::new(alloc, policy.type_count() as usize + 1)?;
    let mut rest = names;
    'each: loop {
        match first_field(rest) {
            Some((name, after)) => {
                add_members(alloc, policy, types, name, &mut found)?;
                rest = after;
            }
            None => return found.to_set(alloc),
        }
    }
}

// Adds the types that a name expands to.
fn add_members(
    alloc: Global,
    policy: &Policy<'_>,
    types: &TypeMap,
    name: &[u8],
    found: &mut DenseSet,
) -> Result<(), AllocError>
    requires map { IsPolicyMap policy.now types.now }
    requires count { found.old.count ≡ policy.now.symbols.types.nprim + 1 }
    ensures count { found.new.count ≡ found.old.count }
    ensures each { OnOk result ((type : ℕ) → is_among found.new.values type ≡ (is_among found.old.values type || value_holds policy.now (value_in policy.now.symbols Types name.now) type)) }
{
    // the policy was accepted, and so its types have values within their table
    policy.is_accepted();
    let Some(value) = policy.symbols().by_name(TableKind::Types, name) else {
        return Ok(());
    };
    if is_flavour(Flavour::Attribute, policy.symbols().flavour(value)) {
        let members = types.expansion(alloc, value)?;
        found.add_set(&members);
    } else {
        found.add(value);
    }
    Ok(())
}
