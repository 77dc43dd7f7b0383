//! The entries of attributes.

ghost use Rattle.std.specs.Prelude.{◌≡◌, ◌<◌, ◌++◌, IfOk, OnOk, length, map};
ghost use Rattle.pol_fields.specs.declared.TableKind.TheVariants.{Types};
ghost use Rattle.std.specs.List.{Contains};
ghost use Rattle.pol_datums.specs.declared.Flavour.TheVariants.{Attribute};
ghost use Rattle.pol_expand.specs.PolicyMap.{IsPolicyMap, values_of_flavour};
ghost use Rattle.info_symbols.specs.AttributeStatement.{IsAttribute};
ghost use Rattle.diff_symbols.specs.SymbolEntries.{value_at};
ghost use Rattle.diff_symbols.specs.TypeEntries.{attribute_entries, attribute_entry, types_with};

use crate::record_texts::{name_at, name_key};
use diff_entries::{Entries, Key, Label, Part};
use diff_parts::{names_part, one_part, push_named};
use info_symbols::{TypeSet, names_of_set, push_attribute_statement, set_numbers};
use pol_expand::{TypeMap, type_map};
use pol_fields::TableKind;
use pol_read::Policy;
use std::alloc::{AllocError, Global};
use std::marker::Model;

/// The entries of the attributes of a policy, in the order of their names. The types of each are looked up as they are asked for.
/// Contracts see them.
#[derive(Drop)]
pub struct AttributeEntries<'p, 'a> {
    policy: &'p Policy<'a>,
    types: TypeMap,
    numbers: Vec<u32>,
}

impl<'p, 'a> Model for AttributeEntries<'p, 'a> {
    ghost use Rattle.std.specs.Prelude.{List, map};
    ghost use Rattle.std.specs.List.{All};
    ghost use Rattle.pol_expand.specs.PolicyMap.{IsPolicyMap};
    ghost use Rattle.info_symbols.specs.AttributeStatement.{IsAttribute};
    ghost use Rattle.diff_entries.specs.Entries.{Entry};
    ghost use Rattle.diff_symbols.specs.TypeEntries.{attribute_entry};

    ghost Value = { List Entry };

    ghost view = { λ e. map (attribute_entry e.policy.now) e.numbers.items };

    ghost invariant = { λ e. IsPolicyMap e.policy.now e.types × All (IsAttribute e.policy.now) e.numbers.items };
}

impl<'p, 'a> AttributeEntries<'p, 'a> {
    /// The entries of a policy's attributes.
    #[tactic(auto, using(info_symbols::proofs::Attributes::listed_attributes))]
    pub fn new(
        alloc: Global,
        policy: &'p Policy<'a>,
    ) -> Result<AttributeEntries<'p, 'a>, AllocError>
        ensures { IfOk result (λ entries. entries ≡ attribute_entries policy.now) }
    {
        let types = type_map(alloc, policy)?;
        let numbers = set_numbers(alloc, policy, TypeSet::Attributes)?;
        Ok(AttributeEntries {
            policy,
            types,
            numbers,
        })
    }
}

impl<'p, 'a> Entries for AttributeEntries<'p, 'a> {
    ghost entries = { λ entries. entries };

    #[tactic(auto, using(crate::proofs::ListedNumbers::as_many))]
    fn len(&self) -> usize {
        self.numbers.len()
    }

    #[tactic(auto, using(crate::proofs::ListedNumbers::as_many, crate::proofs::ListedNumbers::each_is, diff_parts::proofs::NumberedEntries::key_at))]
    fn key(&self, alloc: Global, number: usize) -> Result<Key, AllocError> {
        attribute_key(alloc, self.policy, self.numbers[number])
    }

    #[tactic(auto, using(crate::proofs::ListedNumbers::as_many, crate::proofs::ListedNumbers::each_is, diff_parts::proofs::NumberedEntries::parts_at))]
    fn parts(&self, alloc: Global, number: usize) -> Result<Vec<Part<'_>>, AllocError> {
        attribute_parts(alloc, self.policy, &self.types, self.numbers[number])
    }

    #[tactic(auto, using(crate::proofs::ListedNumbers::as_many, crate::proofs::ListedNumbers::each_is, diff_parts::proofs::NumberedEntries::statement_at))]
    fn push_statement(&self, number: usize, buffer: &mut Vec<u8>) -> Result<(), AllocError> {
        push_statement(buffer, self.policy, &self.types, self.numbers[number])
    }

    #[tactic(auto, using(crate::proofs::ListedNumbers::as_many, crate::proofs::ListedNumbers::each_is, diff_parts::proofs::NumberedEntries::head_at))]
    fn push_head(&self, number: usize, buffer: &mut Vec<u8>) -> Result<(), AllocError> {
        push_head(buffer, self.policy, self.numbers[number])
    }
}

// The key of the attribute of a number.
#[tactic(auto, unfolding(crate::specs::TypeEntries::attribute_entry), using(crate::proofs::AttributeTypes::attribute_within))]
fn attribute_key(alloc: Global, policy: &Policy<'_>, number: u32) -> Result<Key, AllocError>
    requires { IsAttribute policy.now number }
    ensures { IfOk result (λ key. key ≡ (attribute_entry policy.now number).key) }
{
    name_key(alloc, policy.symbols(), TableKind::Types, number)
}

// Its value, which is declared.
#[tactic(auto, using(crate::proofs::AttributeTypes::declared_value, crate::proofs::AttributeTypes::named_value))]
fn attribute_value(policy: &Policy<'_>, number: u32) -> u32
    requires { IsAttribute policy.now number }
    ensures value { result ≡ value_at policy.now.symbols Types number }
    ensures declared { Contains (values_of_flavour policy.now.symbols Attribute) result }
{
    policy.type_record(number).value()
}

// The names of the types that it expands to, in the order of their bytes.
#[tactic(auto, using(crate::proofs::AttributeTypes::attribute_declared, crate::proofs::AttributeTypes::expanded))]
fn types_with<'a>(
    alloc: Global,
    policy: &Policy<'a>,
    types: &TypeMap,
    number: u32,
) -> Result<Vec<&'a [u8]>, AllocError>
    requires attribute { IsAttribute policy.now number }
    requires map { IsPolicyMap policy.now types.now }
    ensures { IfOk result (λ names. map (λ name. name.now) names.items ≡ types_with policy.now number) }
{
    let value = attribute_value(policy, number);
    let set = types.expansion(alloc, value)?;
    names_of_set(alloc, policy.symbols(), &set)
}

// Its part: these names.
#[tactic(auto, unfolding(crate::specs::TypeEntries::attribute_entry))]
fn attribute_parts<'a>(
    alloc: Global,
    policy: &Policy<'a>,
    types: &TypeMap,
    number: u32,
) -> Result<Vec<Part<'a>>, AllocError>
    requires attribute { IsAttribute policy.now number }
    requires map { IsPolicyMap policy.now types.now }
    ensures { IfOk result (λ parts. parts.items ≡ (attribute_entry policy.now number).parts) }
{
    let names = types_with(alloc, policy, types, number)?;
    one_part(alloc, names_part(Label::Unnamed, names))
}

// Adds its statement.
#[tactic(auto, unfolding(crate::specs::TypeEntries::attribute_entry), using(crate::proofs::AttributeTypes::attribute_stated, crate::proofs::AttributeTypes::attribute_within))]
fn push_statement(
    buffer: &mut Vec<u8>,
    policy: &Policy<'_>,
    types: &TypeMap,
    number: u32,
) -> Result<(), AllocError>
    requires attribute { IsAttribute policy.now number }
    requires map { IsPolicyMap policy.now types.now }
    ensures { OnOk result (buffer.new.items ≡ buffer.old.items ++ (attribute_entry policy.now number).statement) }
{
    let names = types_with(*buffer.allocator(), policy, types, number)?;
    let name = name_at(policy.symbols(), TableKind::Types, number);
    push_attribute_statement(buffer, name, &names)
}

// Adds the beginning of it.
#[tactic(auto, unfolding(crate::specs::TypeEntries::attribute_entry), using(crate::proofs::AttributeTypes::attribute_within))]
fn push_head(buffer: &mut Vec<u8>, policy: &Policy<'_>, number: u32) -> Result<(), AllocError>
    requires { IsAttribute policy.now number }
    ensures { OnOk result (buffer.new.items ≡ buffer.old.items ++ (attribute_entry policy.now number).head) }
{
    push_named(
        buffer,
        b"attribute ",
        name_at(policy.symbols(), TableKind::Types, number),
    )
}
