// How many rules between single types there are.
ghost use Rattle.std.specs.Prelude.{◌≡◌, ◌≤◌, IfOk, length};
ghost use Rattle.pol_fields.specs.declared.TableKind.TheVariants.{Types};
ghost use Rattle.pol_expand.specs.PolicyMap.{IsPolicyMap, expand};
ghost use Rattle.pol_read.specs.DeclaredRules.{IsDeclaredIn, IsDeclaredRule};
ghost use Rattle.pol_read.specs.StoredRules.{stored};
ghost use Rattle.se_make.specs.Singles.{pairs_of, singles_of, types_of_end};

use pol_expand::{TypeMap, type_map};
use pol_fields::TableKind;
use pol_read::{Policy, Rule};
use std::alloc::{AllocError, Global};

// How many rules between single types there are. They are counted, and no list of them is made.
pub fn count_singles(alloc: Global, policy: &Policy<'_>) -> Result<u64, AllocError>
    ensures { IfOk result (λ count. count ≡ length (singles_of policy.now)) }
{
    let types = type_map(alloc, policy)?;
    let mut count = 0;
    for number in 0..policy.rule_count() {
        let rule = policy.rule(number);
        count += count_of_rule(alloc, policy, &types, &rule)?;
    }
    Ok(count)
}

// How many the rule stands for: each source with each target.
fn count_of_rule(
    alloc: Global,
    policy: &Policy<'_>,
    types: &TypeMap,
    rule: &Rule<'_>,
) -> Result<u64, AllocError>
    requires map { IsPolicyMap policy.now types.now }
    requires declared { IsDeclaredRule policy.now (stored rule.now) }
    ensures count { IfOk result (λ count. count ≡ pairs_of policy.now (stored rule.now)) }
    ensures few { IfOk result (λ count. count ≤ 4294836225) }
{
    let sources = count_ends(alloc, policy, types, rule.kind.source_table(), rule.source)?;
    let targets = count_ends(alloc, policy, types, rule.kind.target_table(), rule.target)?;
    Ok(sources * targets)
}

// How many types, or roles, an end of a table stands for.
fn count_ends(
    alloc: Global,
    policy: &Policy<'_>,
    types: &TypeMap,
    table: TableKind,
    value: u32,
) -> Result<u64, AllocError>
    requires map { IsPolicyMap policy.now types.now }
    requires declared { table ≡ Types → IsDeclaredIn policy.now.symbols Types value }
    ensures count { IfOk result (λ count. count ≡ length (types_of_end policy.now table value)) }
    ensures few { IfOk result (λ count. count ≤ 65535) }
{
    match table {
        TableKind::Types => count_expansion(alloc, policy, types, value),
        _ => Ok(1),
    }
}

// How many types a type or an attribute expands to.
fn count_expansion(
    alloc: Global,
    policy: &Policy<'_>,
    types: &TypeMap,
    value: u32,
) -> Result<u64, AllocError>
    requires map { IsPolicyMap policy.now types.now }
    requires declared { IsDeclaredIn policy.now.symbols Types value }
    ensures count { IfOk result (λ count. count ≡ length (expand policy.now value)) }
    ensures few { IfOk result (λ count. count ≤ 65535) }
{
    // the clauses say that the policy was accepted, so that its declared types have values of their own, and few
    policy.is_accepted();
    let _count = policy.type_count();
    Ok(types.expansion(alloc, value)?.count())
}
