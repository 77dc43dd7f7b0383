// The allow rules that give what is asked for, to a type that is not exempt.
ghost use Rattle.std.specs.Prelude.{◌≡◌, ◌++◌, ℕ, true, Some, None, IfOk, OnOk, length, option_map};
ghost use Rattle.std.specs.List.{flat_map, range_with_len};
ghost use Rattle.std.specs.List.Sorted.{IsPermutation};
ghost use Rattle.pol_bitmap.specs.Nodes.{bits_of};
ghost use Rattle.pol_expand.specs.PlainTypes.{is_type_value};
ghost use Rattle.pol_expand.specs.PolicyMap.{IsPolicyMap};
ghost use Rattle.pol_expand.specs.Inner.StoredEnds.{IsEnd, holds_any};
ghost use Rattle.rule_order.specs.ListedOrder.{AreRules};
ghost use Rattle.text_rows.specs.TextLines.{fields_in};
ghost use Rattle.value_groups.specs.Among.{is_among};
ghost use Rattle.se_checker.specs.Verdicts.{has_wanted, is_wanted, rules_against, rules_asked};
ghost use Rattle.se_checker.specs.Inner.AllowRules.{AreAllowRules, rules_in};
ghost use Rattle.se_checker.specs.Inner.AskedBits.{asks_at, has_asked, is_passing, numbers_passing};

use crate::allow_rules::{AllowRule, AllowRules};
use crate::asked::{Asked, AskedBits, asked_bits, asked_by};
use crate::named_types::members;
use check_list::Check;
use pol_bitmap::Set;
use pol_expand::{TypeMap, types_outside};
use pol_read::Policy;
use rule_order::{rules_have_one_order, sort_by_rule_order};
use std::alloc::{AllocError, Global};
use value_groups::DenseSet;

/// The numbers of the rules that an assertion finds, in the order in which rules are listed.
pub fn rules_against(
    alloc: Global,
    policy: &Policy<'_>,
    types: &TypeMap,
    rules: &AllowRules,
    check: &Check<'_>,
) -> Result<Vec<u32>, AllocError>
    requires map { IsPolicyMap policy.now types.now }
    requires rules { AreAllowRules policy.now rules.now }
    ensures found { IfOk result (λ numbers. numbers.items ≡ rules_against policy.now check.now) }
    ensures rules { IfOk result (λ numbers. AreRules policy.now numbers.items) }
{
    rules_have_one_order(policy);
    let found = rules_asked(alloc, policy, types, rules, &asked_by(check))?;
    sort_by_rule_order(alloc, policy, &found)
}

/// The numbers of the rules that give what is asked for, class by class. Those of the classes that are asked for are gone through once.
pub fn rules_asked(
    alloc: Global,
    policy: &Policy<'_>,
    types: &TypeMap,
    rules: &AllowRules,
    asked: &Asked<'_>,
) -> Result<Vec<u32>, AllocError>
    requires map { IsPolicyMap policy.now types.now }
    requires rules { AreAllowRules policy.now rules.now }
    ensures { IfOk result (λ numbers. IsPermutation numbers.items (rules_asked policy.now asked.now)) }
{
    // the policy was accepted, and so the ends of an allow rule are types and attributes, and its class is declared
    policy.is_accepted();
    let sources = wanted_ends(alloc, policy, types, asked.source, asked.exempt_source)?;
    let targets = wanted_ends(alloc, policy, types, asked.target, asked.exempt_target)?;
    passing_rules(alloc, policy, rules, asked, &sources, &targets)
}

// The rules that give what is asked for from some stored ends to others.
fn passing_rules(
    alloc: Global,
    policy: &Policy<'_>,
    rules: &AllowRules,
    asked: &Asked<'_>,
    sources: &DenseSet,
    targets: &DenseSet,
) -> Result<Vec<u32>, AllocError>
    requires { AreAllowRules policy.now rules.now }
    ensures { IfOk result (λ numbers. numbers.items ≡ flat_map (λ place. numbers_passing (asks_at policy.now.symbols asked.now place) sources.now.values targets.now.values (rules_in rules.now place)) (range_with_len 0 (length policy.now.symbols.classes.records))) }
{
    let symbols = policy.symbols();
    let mut found = Vec::new(alloc);
    for place in 0..symbols.classes.len() {
        let bits = asked_bits(symbols, asked, &symbols.classes.view(place));
        push_passing(&mut found, rules.of_class(place), bits, sources, targets)?;
    }
    Ok(found)
}

// Appends the numbers of those of some rules that have what is asked for.
fn push_passing(
    found: &mut Vec<u32>,
    rules: &[AllowRule],
    bits: AskedBits,
    sources: &DenseSet,
    targets: &DenseSet,
) -> Result<(), AllocError>
    ensures { OnOk result (found.new.items ≡ found.old.items ++ numbers_passing (has_asked bits) sources.now.values targets.now.values rules.now) }
{
    if let AskedBits::Nothing = bits {
        return Ok(());
    }
    for rule in rules {
        if is_passing(rule, bits, sources, targets) {
            found.push(rule.number)?;
        }
    }
    Ok(())
}

// Whether a rule has what is asked for.
#[inline(always)]
fn is_passing(rule: &AllowRule, bits: AskedBits, sources: &DenseSet, targets: &DenseSet) -> bool
    ensures { result ≡ is_passing (has_asked bits) sources.now.values targets.now.values rule.now }
{
    bits.has(rule.mask) && sources.has(rule.source) && targets.has(rule.target)
}

// The types and attributes that expand to a type that is asked for and not exempt.
fn wanted_ends(
    alloc: Global,
    policy: &Policy<'_>,
    types: &TypeMap,
    asked: Option<&[u8]>,
    exempt: &[u8],
) -> Result<DenseSet, AllocError>
    requires { IsPolicyMap policy.now types.now }
    ensures { IfOk result (λ ends. (end : ℕ) → IsEnd policy.now end → is_among ends.values end ≡ has_wanted policy.now (option_map (λ names. fields_in names.now) asked.entry) (fields_in exempt.now) end) }
{
    let wanted = wanted_types(alloc, policy, types, asked, exempt)?;
    ends_with(alloc, policy, types, &wanted)
}

// The types that are asked for and not exempt.
fn wanted_types(
    alloc: Global,
    policy: &Policy<'_>,
    types: &TypeMap,
    asked: Option<&[u8]>,
    exempt: &[u8],
) -> Result<Set, AllocError>
    requires { IsPolicyMap policy.now types.now }
    ensures { IfOk result (λ set. (type : ℕ) → is_type_value policy.now type ≡ true → is_among (bits_of set) type ≡ is_wanted policy.now (option_map (λ names. fields_in names.now) asked.entry) (fields_in exempt.now) type) }
{
    match asked {
        Some(names) => asked_types(alloc, policy, types, names, exempt),
        None => other_types(alloc, policy, types, exempt),
    }
}

// Of the types that are asked for, the ones that are not exempt.
fn asked_types(
    alloc: Global,
    policy: &Policy<'_>,
    types: &TypeMap,
    names: &[u8],
    exempt: &[u8],
) -> Result<Set, AllocError>
    requires { IsPolicyMap policy.now types.now }
    ensures { IfOk result (λ set. (type : ℕ) → is_type_value policy.now type ≡ true → is_among (bits_of set) type ≡ is_wanted policy.now (Some (fields_in names.now)) (fields_in exempt.now) type) }
{
    let without = members(alloc, policy, types, exempt)?;
    let asked = members(alloc, policy, types, names)?;
    asked.difference(alloc, &without)
}

// Of all types, the ones that are not exempt.
fn other_types(
    alloc: Global,
    policy: &Policy<'_>,
    types: &TypeMap,
    exempt: &[u8],
) -> Result<Set, AllocError>
    requires { IsPolicyMap policy.now types.now }
    ensures { IfOk result (λ set. (type : ℕ) → is_type_value policy.now type ≡ true → is_among (bits_of set) type ≡ is_wanted policy.now None (fields_in exempt.now) type) }
{
    let without = members(alloc, policy, types, exempt)?;
    types_outside(alloc, policy, &without)
}

// The types and attributes that expand to one of some types.
fn ends_with(
    alloc: Global,
    policy: &Policy<'_>,
    types: &TypeMap,
    wanted: &Set,
) -> Result<DenseSet, AllocError>
    requires { IsPolicyMap policy.now types.now }
    ensures { IfOk result (λ ends. (end : ℕ) → IsEnd policy.now end → is_among ends.values end ≡ holds_any policy.now (bits_of wanted.now) end) }
{
    let touching = types.touching(alloc, wanted)?;
    let mut ends = DenseSet::new(alloc, policy.type_count() as usize + 1)?;
    ends.add_set(&touching);
    Ok(ends)
}
