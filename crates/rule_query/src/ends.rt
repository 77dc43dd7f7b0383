// What a criterion asks of the source or the target of rules, as sets of values.
ghost use Rattle.std.specs.Prelude.{◌≡◌, ℕ, IfOk};
ghost use Rattle.pol_fields.specs.declared.TableKind.TheVariants.{Types};
ghost use Rattle.pol_bitmap.specs.Nodes.{bits_of, has_bit};
ghost use Rattle.pol_file.specs.TypeValues.{IsTypeValue};
ghost use Rattle.pol_expand.specs.PolicyMap.{IsPolicyMap, expand};
ghost use Rattle.pol_read.specs.DeclaredRules.{IsDeclaredIn};
ghost use Rattle.rule_query.specs.Ends.{is_meant, meets_type, expands_to};
ghost use Rattle.rule_query.specs.Inner.LookedUp.{AreEnds, AreMeant, HasPattern, IsMapIfMade, is_asked_name, is_asked_type};

use crate::marked_set::MarkedSet;
use named_values::{values_found, values_named};
use pol_bitmap::Set;
use pol_expand::{TypeMap, type_map};
use pol_fields::TableKind;
use pol_read::Policy;
use pol_symbols::Symbols;
use regex::Regex;
use rule_criteria::Criterion;
use std::alloc::{AllocError, Global};

/// The values of types, attributes among them, and of roles that an end may have.
pub struct Ends {
    pub types: MarkedSet,
    pub roles: MarkedSet,
}

// Its parts go in one call, wherever it is dropped.
impl Drop for Ends {
    fn drop(self) {
        let Ends { types, roles } = self;
    }
}

impl Ends {
    ghost use Rattle.rule_query.specs.QueryTests.{has_end};

    // The ends of a set of types and one of roles.
    fn of(alloc: Global, types: Set, roles: Set) -> Result<Ends, AllocError>
        ensures types { IfOk result (λ ends. ends.types ≡ types) }
        ensures roles { IfOk result (λ ends. ends.roles ≡ roles) }
    {
        let types = MarkedSet::of(alloc, types)?;
        let roles = MarkedSet::of(alloc, roles)?;
        Ok(Ends { types, roles })
    }

    /// Whether a value of a table is one of them.
    pub fn has(&self, table: TableKind, value: u32) -> bool
        ensures { result ≡ has_end self.now table value }
    {
        match table {
            TableKind::Roles => self.roles.has(value),
            _ => self.types.has(value),
        }
    }
}

/// The sources, or the targets, that meet a criterion. The map of types is made where it is first asked for.
pub fn ends_of(
    alloc: Global,
    policy: &Policy<'_>,
    types: &mut Option<TypeMap>,
    criterion: &Criterion,
    pattern: &Option<Regex>,
) -> Result<Ends, AllocError>
    requires map { IsMapIfMade policy.now types.old }
    requires pattern { HasPattern criterion.now pattern.now }
    ensures map { IsMapIfMade policy.now types.new }
    ensures ends { IfOk result (AreEnds policy.now criterion.now) }
{
    let of_types = type_ends(alloc, policy, types, criterion, pattern)?;
    let of_roles = meant(
        alloc,
        policy.symbols(),
        TableKind::Roles,
        criterion,
        pattern,
    )?;
    Ends::of(alloc, of_types, of_roles)
}

/// The defaults that meet a criterion: types, and new roles.
pub fn defaults(
    alloc: Global,
    symbols: &Symbols<'_>,
    criterion: &Criterion,
    pattern: &Option<Regex>,
) -> Result<Ends, AllocError>
    requires { HasPattern criterion.now pattern.now }
    ensures { IfOk result (AreMeant symbols.now criterion.now) }
{
    let of_types = meant(alloc, symbols, TableKind::Types, criterion, pattern)?;
    let of_roles = meant(alloc, symbols, TableKind::Roles, criterion, pattern)?;
    Ends::of(alloc, of_types, of_roles)
}

// The values of a table that are meant themselves.
fn meant(
    alloc: Global,
    symbols: &Symbols<'_>,
    table: TableKind,
    criterion: &Criterion,
    pattern: &Option<Regex>,
) -> Result<Set, AllocError>
    requires { HasPattern criterion.now pattern.now }
    ensures { IfOk result (λ set. (value : ℕ) → has_bit set value ≡ is_meant symbols.now table criterion.now value) }
{
    match pattern {
        Some(pattern) => values_found(alloc, symbols, table, pattern),
        None => values_named(alloc, symbols, table, &[criterion.text.as_str().as_bytes()]),
    }
}

// The types and attributes that meet a criterion. Only those that do by what they expand to ask for the map.
fn type_ends(
    alloc: Global,
    policy: &Policy<'_>,
    types: &mut Option<TypeMap>,
    criterion: &Criterion,
    pattern: &Option<Regex>,
) -> Result<Set, AllocError>
    requires map { IsMapIfMade policy.now types.old }
    requires pattern { HasPattern criterion.now pattern.now }
    ensures map { IsMapIfMade policy.now types.new }
    ensures ends { IfOk result (λ set. (value : ℕ) → IsDeclaredIn policy.now.symbols Types value → has_bit set value ≡ meets_type policy.now criterion.now value) }
{
    if criterion.mode.is_direct() {
        meant(
            alloc,
            policy.symbols(),
            TableKind::Types,
            criterion,
            pattern,
        )
    } else {
        let map = made_map(alloc, policy, types.take())?;
        let ends = expanding(alloc, policy, &map, criterion, pattern);
        *types = Some(map);
        ends
    }
}

// The map of a policy's types that was made, or else one that is made here.
fn made_map(
    alloc: Global,
    policy: &Policy<'_>,
    types: Option<TypeMap>,
) -> Result<TypeMap, AllocError>
    requires { IsMapIfMade policy.now types }
    ensures { IfOk result (IsPolicyMap policy.now) }
{
    match types {
        Some(map) => Ok(map),
        None => type_map(alloc, policy),
    }
}

// The types and attributes that expand to some type that is asked.
fn expanding(
    alloc: Global,
    policy: &Policy<'_>,
    types: &TypeMap,
    criterion: &Criterion,
    pattern: &Option<Regex>,
) -> Result<Set, AllocError>
    requires map { IsPolicyMap policy.now types.now }
    requires pattern { HasPattern criterion.now pattern.now }
    ensures { IfOk result (λ set. (value : ℕ) → IsDeclaredIn policy.now.symbols Types value → has_bit set value ≡ expands_to policy.now criterion.now value) }
{
    // the clause says that the policy was accepted, so that its declared types have values of their own
    policy.is_accepted();
    let asked = asked_types(alloc, policy, types, criterion, pattern)?;
    types.touching(alloc, &asked)
}

// The types that are asked.
fn asked_types(
    alloc: Global,
    policy: &Policy<'_>,
    types: &TypeMap,
    criterion: &Criterion,
    pattern: &Option<Regex>,
) -> Result<Set, AllocError>
    requires map { IsPolicyMap policy.now types.now }
    requires pattern { HasPattern criterion.now pattern.now }
    ensures { IfOk result (λ set. (value : ℕ) → has_bit set value ≡ is_asked_type policy.now criterion.now value) }
{
    match pattern {
        Some(pattern) => values_found(alloc, policy.symbols(), TableKind::Types, pattern),
        None => named_types(alloc, policy, types, criterion.text.as_str().as_bytes()),
    }
}

// What a type or attribute of a name expands to.
fn named_types(
    alloc: Global,
    policy: &Policy<'_>,
    types: &TypeMap,
    name: &[u8],
) -> Result<Set, AllocError>
    requires { IsPolicyMap policy.now types.now }
    ensures { IfOk result (λ set. (value : ℕ) → has_bit set value ≡ is_asked_name policy.now name.now value) }
{
    // the clause says that the policy was accepted, so that each name of a type has a value
    policy.is_accepted();
    match policy.symbols().by_name(TableKind::Types, name) {
        Some(value) => expansion_of(alloc, policy, types, value),
        None => Set::empty(alloc),
    }
}

// What the value of a record of types expands to: itself where no primary record declares it.
fn expansion_of(
    alloc: Global,
    policy: &Policy<'_>,
    types: &TypeMap,
    value: u32,
) -> Result<Set, AllocError>
    requires map { IsPolicyMap policy.now types.now }
    requires value { IsTypeValue policy.now.symbols value }
    ensures { IfOk result (λ set. bits_of set ≡ expand policy.now value) }
{
    match policy.symbols().flavour(value) {
        Some(_) => types.expansion(alloc, value),
        None => Set::from_rising(alloc, &[value]),
    }
}
