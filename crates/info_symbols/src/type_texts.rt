//! The statements that declare types.

ghost use Rattle.std.specs.Prelude.{◌≡◌, ◌++◌, true, IfOk, OnOk, map};
ghost use Rattle.std.specs.List.{filter};
ghost use Rattle.pol_fields.specs.declared.TableKind.TheVariants.{Types};
ghost use Rattle.info_symbols.specs.Inner.AliasLists.{AreAliases};
ghost use Rattle.info_symbols.specs.TypeStatements.{attribute_names, attributes_of_type, attributes_text, is_attribute, may_be_type, type_statement};

use crate::aliases::{Aliases, push_aliases};
use info_lines::{names_of_values, values_of_bits};
use pol_datums::{Flavour, TypeView};
use pol_expand::is_flavour;
use pol_fields::TableKind;
use pol_read::Policy;
use pol_symbols::Symbols;
use std::alloc::{AllocError, Global};

/// Adds the statement that declares a type, with the aliases of its table.
#[tactic(auto, unfolding(crate::specs::TypeStatements::type_statement))]
pub(crate) fn push_type_statement(
    buffer: &mut Vec<u8>,
    policy: &Policy<'_>,
    aliases: &Aliases<'_>,
    t: &TypeView<'_>,
) -> Result<(), AllocError>
    requires { AreAliases true policy.now.symbols Types aliases.now }
    ensures { OnOk result (buffer.new.items ≡ buffer.old.items ++ type_statement policy.now t.now.value) }
{
    buffer.extend_from_slice(b"type ")?;
    buffer.extend_from_slice(t.name())?;
    push_aliases(buffer, aliases, t.value())?;
    push_attributes(buffer, policy, t.value())?;
    buffer.extend_from_slice(b";")
}

// Adds the attributes of a type, in the order of their names.
fn push_attributes(buffer: &mut Vec<u8>, policy: &Policy<'_>, value: u32) -> Result<(), AllocError>
    ensures { OnOk result (buffer.new.items ≡ buffer.old.items ++ attributes_text (attribute_names policy.now value)) }
{
    let names = attribute_names(*buffer.allocator(), policy, value)?;
    push_after_commas(buffer, &names)
}

/// The names of the attributes of a type, in the order of their bytes.
pub fn attribute_names<'a>(
    alloc: Global,
    policy: &Policy<'a>,
    value: u32,
) -> Result<Vec<&'a [u8]>, AllocError>
    ensures { IfOk result (λ names. map (λ name. name.now) names.items ≡ attribute_names policy.now value) }
{
    let values = attributes_of_type(alloc, policy, value)?;
    names_of_values(alloc, policy.symbols(), TableKind::Types, values)
}

// Adds names, with a comma and a space before each.
fn push_after_commas(buffer: &mut Vec<u8>, names: &[&[u8]]) -> Result<(), AllocError>
    ensures { OnOk result (buffer.new.items ≡ buffer.old.items ++ attributes_text (map (λ name. name.now) names.now)) }
{
    for name in names {
        buffer.extend_from_slice(b", ")?;
        buffer.extend_from_slice(name)?;
    }
    Ok(())
}

// The attributes in the row of a type, rising.
fn attributes_of_type(
    alloc: Global,
    policy: &Policy<'_>,
    value: u32,
) -> Result<Vec<u32>, AllocError>
    ensures { IfOk result (λ values. values.items ≡ attributes_of_type policy.now value) }
{
    if !may_be_type(policy.symbols(), value) {
        return Ok(Vec::new(alloc));
    }
    let mut values = values_of_bits(alloc, &policy.row(value))?;
    keep_attributes(policy.symbols(), &mut values);
    Ok(values)
}

// Whether the table of types may declare the value.
fn may_be_type(symbols: &Symbols<'_>, value: u32) -> bool
    ensures { result ≡ may_be_type symbols.now value }
{
    0 < value && value <= symbols.prims(TableKind::Types)
}

// Keeps those of the values that are attributes.
fn keep_attributes(symbols: &Symbols<'_>, values: &mut Vec<u32>)
    ensures { values.new.items ≡ filter (is_attribute symbols.now) values.old.items }
{
    values.retain(|value| is_attribute(symbols, *value));
}

// Whether a value is declared as an attribute.
fn is_attribute(symbols: &Symbols<'_>, value: u32) -> bool
    ensures { result ≡ is_attribute symbols.now value }
{
    is_flavour(Flavour::Attribute, symbols.flavour(value))
}
