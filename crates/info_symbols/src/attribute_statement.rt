//! The statements of attributes.

ghost use Rattle.std.specs.Prelude.{◌≡◌, ◌++◌, ◌∷◌, [], IfOk, OnOk, map};
ghost use Rattle.std.specs.List.{All, Contains};
ghost use Rattle.pol_fields.specs.declared.TableKind.TheVariants.{Types};
ghost use Rattle.pol_datums.specs.declared.Flavour.TheVariants.{Attribute};
ghost use Rattle.info_lines.specs.Inner.Listings.{line_of};
ghost use Rattle.info_lines.specs.NameSets.{names_of_values};
ghost use Rattle.pol_expand.specs.PolicyMap.{IsPolicyMap, expand, values_of_flavour};
ghost use Rattle.info_symbols.specs.AttributeStatement.{IsAttribute, attribute_statement, attribute_statement_listing, attribute_statement_listing_named, statement_lines, statement_text, types_text};

use crate::ranked_types::names_of_set;
use crate::type_sets::{TypeSet, set_number_named, set_numbers};
use info_lines::{Lines, push_set};
use pol_expand::{TypeMap, type_map};
use pol_read::Policy;
use std::alloc::{AllocError, Global};
use std::marker::Model;

/// The statements of attributes, one after the other. The types of each are looked up as its line comes. Contracts see the
/// lines that are left.
pub struct AttributeLines<'p, 'a> {
    alloc: Global,
    policy: &'p Policy<'a>,
    types: TypeMap,
    // The numbers of the attributes' records.
    numbers: Vec<u32>,
    next: usize,
}

// Its parts go in one call, wherever it is dropped.
impl Drop for AttributeLines<'_, '_> {
    fn drop(self) {
        let AttributeLines {
            alloc,
            policy,
            types,
            numbers,
            next,
        } = self;
    }
}

impl<'p, 'a> Model for AttributeLines<'p, 'a> {
    ghost use Rattle.std.specs.Prelude.{ℕ, ◌≤◌, List, drop, length, map};
    ghost use Rattle.std.specs.List.{All};
    ghost use Rattle.info_lines.specs.Inner.Listings.{line_of};
    ghost use Rattle.pol_expand.specs.PolicyMap.{IsPolicyMap};
    ghost use Rattle.info_symbols.specs.AttributeStatement.{IsAttribute, statement_lines};

    ghost Value = { List (List ℕ) };

    ghost view = { λ lines. map (line_of (statement_lines lines.policy.now)) (drop lines.next lines.numbers.items) };

    ghost invariant = { λ lines. IsPolicyMap lines.policy.now lines.types × All (IsAttribute lines.policy.now) lines.numbers.items × (lines.next ≤ length lines.numbers.items) };
}

impl<'p, 'a> Lines for AttributeLines<'p, 'a> {
    ghost left = { λ lines. lines };

    fn count(&self) -> u64 {
        (self.numbers.len() - self.next) as u64
    }

    fn push_line(&mut self, buffer: &mut Vec<u8>) -> Result<(), AllocError> {
        if self.next < self.numbers.len() {
            let number = self.numbers[self.next];
            push_statement(self.alloc, self.policy, &mut self.types, number, buffer)?;
            self.next += 1;
        }
        Ok(())
    }
}

// Adds the statement of an attribute, by the number of its record.
fn push_statement(
    alloc: Global,
    policy: &Policy<'_>,
    types: &mut TypeMap,
    number: u32,
    buffer: &mut Vec<u8>,
) -> Result<(), AllocError>
    requires map { IsPolicyMap policy.now types.old }
    requires attribute { IsAttribute policy.now number }
    ensures map { IsPolicyMap policy.now types.new }
    ensures text { OnOk result (buffer.new.items ≡ buffer.old.items ++ line_of (statement_lines policy.now) number) }
{
    let attribute = policy.type_record(number);
    let names = names_with(alloc, policy, types, attribute.value())?;
    push_attribute_statement(buffer, attribute.name(), &names)
}

// The names of the types that have an attribute, in the order of their bytes.
fn names_with<'a>(
    alloc: Global,
    policy: &Policy<'a>,
    types: &mut TypeMap,
    attribute: u32,
) -> Result<Vec<&'a [u8]>, AllocError>
    requires map { IsPolicyMap policy.now types.old }
    requires attribute { Contains (values_of_flavour policy.now.symbols Attribute) attribute }
    ensures map { IsPolicyMap policy.now types.new }
    ensures names { IfOk result (λ names. map (λ name. name.now) names.items ≡ names_of_values policy.now.symbols Types (expand policy.now attribute)) }
{
    let number = types.members(alloc, attribute)?;
    names_of_set(alloc, policy.symbols(), types.pool().get(number))
}

/// Adds the statement of an attribute of that name, whose types have these names.
pub fn push_attribute_statement(
    buffer: &mut Vec<u8>,
    name: &[u8],
    types: &[&[u8]],
) -> Result<(), AllocError>
    ensures { OnOk result (buffer.new.items ≡ buffer.old.items ++ statement_text name.now (map (λ name. name.now) types.now)) }
{
    buffer.extend_from_slice(b"attribute ")?;
    buffer.extend_from_slice(name)?;
    push_types(buffer, types)?;
    buffer.extend_from_slice(b";")
}

// Adds the set of the types of an attribute, or nothing where there is none.
fn push_types(buffer: &mut Vec<u8>, types: &[&[u8]]) -> Result<(), AllocError>
    ensures { OnOk result (buffer.new.items ≡ buffer.old.items ++ types_text (map (λ name. name.now) types.now)) }
{
    match types {
        [] => Ok(()),
        _ => {
            buffer.push(b' ')?;
            push_set(buffer, types)
        }
    }
}

/// The statements of all attributes, in the order of their names: each with the types that have it, or without any.
pub fn attribute_statements<'p, 'a>(
    alloc: Global,
    policy: &'p Policy<'a>,
) -> Result<AttributeLines<'p, 'a>, AllocError>
    ensures { IfOk result (λ lines. lines ≡ attribute_statement_listing policy.now) }
{
    let numbers = set_numbers(alloc, policy, TypeSet::Attributes)?;
    lines_of(alloc, policy, numbers)
}

// The statements of the attributes of these numbers.
fn lines_of<'p, 'a>(
    alloc: Global,
    policy: &'p Policy<'a>,
    numbers: Vec<u32>,
) -> Result<AttributeLines<'p, 'a>, AllocError>
    requires { All (IsAttribute policy.now) numbers.items }
    ensures { IfOk result (λ lines. lines ≡ map (line_of (statement_lines policy.now)) numbers.items) }
{
    let types = type_map(alloc, policy)?;
    Ok(AttributeLines {
        alloc,
        policy,
        types,
        numbers,
        next: 0,
    })
}

// The statement of the attribute of a number.
fn line_of_number<'p, 'a>(
    alloc: Global,
    policy: &'p Policy<'a>,
    number: u32,
) -> Result<AttributeLines<'p, 'a>, AllocError>
    requires { IsAttribute policy.now number }
    ensures { IfOk result (λ lines. lines ≡ line_of (statement_lines policy.now) number ∷ []) }
{
    let mut numbers = Vec::new(alloc);
    numbers.push(number)?;
    lines_of(alloc, policy, numbers)
}

/// The statement of the attribute that a name finds, or `None` where there is none.
#[tactic(auto, using(crate::proofs::Attributes::named_attribute, crate::proofs::Attributes::statement_named, crate::proofs::Attributes::statement_unnamed))]
pub fn attribute_statements_named<'p, 'a>(
    alloc: Global,
    policy: &'p Policy<'a>,
    name: &[u8],
) -> Result<Option<AttributeLines<'p, 'a>>, AllocError>
    ensures { IfOk result (λ lines. lines ≡ attribute_statement_listing_named policy.now name.now) }
{
    match set_number_named(policy, TypeSet::Attributes, name) {
        Some(number) => {
            let line = line_of_number(alloc, policy, number)?;
            Ok(Some(line))
        }
        None => Ok(None),
    }
}
