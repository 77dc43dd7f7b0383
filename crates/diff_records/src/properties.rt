//! The entries of the properties of a policy.

ghost use Rattle.std.specs.Prelude.{◌≡◌, ◌++◌, ◌∷◌, [], decimal, IfOk, OnOk, map};
ghost use Rattle.std.specs.List.{filter_map};
ghost use Rattle.pol_fields.specs.declared.TableKind.TheVariants.{Levels};
ghost use Rattle.pol_symbols.specs.PolicySymbols.{name_in};
ghost use Rattle.pol_texts.specs.SetTexts.{listed};
ghost use Rattle.diff_records.specs.PropertyEntries.{properties_of, property_entries, sensitivity_names, spaced, unknown_word};

use crate::records::{ComparedRecord, RecordEntries};
use diff_entries::{Key, Part};
use diff_parts::{one_part, push_named, word_part};
use pol_fields::TableKind;
use pol_read::Policy;
use pol_symbols::Symbols;
use pol_texts::push_decimal;
use std::alloc::{AllocError, Global};
use std::marker::Model;

/// A property of a policy: what it is called, and the text that says it. Contracts see both.
#[derive(Drop)]
pub struct Property {
    name: &'static [u8],
    text: Vec<u8>,
}

impl Model for Property {
    ghost use Rattle.diff_records.specs.PropertyEntries.{PropertyText};

    ghost Value = { PropertyText };

    ghost view = { λ p. record { name = p.name.now; text = p.text.items } };
}

impl ComparedRecord for Property {
    ghost use Rattle.diff_records.specs.PropertyEntries.{property_entry};

    ghost entry = { λ symbols property. property_entry property };

    #[tactic(auto, unfolding(crate::specs::PropertyEntries::property_entry))]
    fn key(&self, alloc: Global, symbols: &Symbols<'_>) -> Result<Key, AllocError> {
        Key::of_name(alloc, self.name)
    }

    #[tactic(auto, unfolding(crate::specs::PropertyEntries::property_entry))]
    fn parts<'r>(
        &'r self,
        alloc: Global,
        symbols: &'r Symbols<'_>,
    ) -> Result<Vec<Part<'r>>, AllocError> {
        let part = word_part(alloc, &self.text)?;
        one_part(alloc, part)
    }

    #[tactic(auto, unfolding(crate::specs::PropertyEntries::property_entry))]
    fn push_statement(
        &self,
        symbols: &Symbols<'_>,
        buffer: &mut Vec<u8>,
    ) -> Result<(), AllocError> {
        self.push_head(symbols, buffer)
    }

    #[tactic(auto, unfolding(crate::specs::PropertyEntries::property_entry))]
    fn push_head(&self, symbols: &Symbols<'_>, buffer: &mut Vec<u8>) -> Result<(), AllocError> {
        push_named(buffer, b"property ", self.name)
    }
}

/// The entries of the properties of a policy.
#[tactic(auto, unfolding(crate::specs::PropertyEntries::property_entries))]
pub fn property_entries<'p, 'a>(
    alloc: Global,
    policy: &'p Policy<'a>,
) -> Result<RecordEntries<'p, 'a, Property>, AllocError>
    ensures { IfOk result (λ entries. entries ≡ property_entries policy.now) }
{
    let properties = properties_of(alloc, policy)?;
    Ok(RecordEntries::new(policy.symbols(), properties))
}

// All three.
fn properties_of(alloc: Global, policy: &Policy<'_>) -> Result<Vec<Property>, AllocError>
    ensures { IfOk result (λ properties. properties.items ≡ properties_of policy.now) }
{
    let mut properties = Vec::new(alloc);
    properties.push(Property {
        name: b"dominance",
        text: dominance_text(alloc, policy.symbols())?,
    })?;
    properties.push(Property {
        name: b"handle_unknown",
        text: Vec::from_slice(alloc, unknown_word(policy.config()))?,
    })?;
    properties.push(Property {
        name: b"version",
        text: version_text(alloc, policy.version())?,
    })?;
    Ok(properties)
}

// How unknown classes and permissions are treated.
fn unknown_word(config: u32) -> &'static [u8]
    ensures { result.now ≡ unknown_word config }
{
    if config / 2 % 2 == 1 {
        b"reject"
    } else if config / 4 % 2 == 1 {
        b"allow"
    } else {
        b"deny"
    }
}

// The text of a version.
fn version_text(alloc: Global, version: u32) -> Result<Vec<u8>, AllocError>
    ensures { IfOk result (λ text. text.items ≡ decimal version) }
{
    let mut text = Vec::new(alloc);
    push_decimal(&mut text, u64::from(version))?;
    Ok(text)
}

// The sensitivities in the order of their values.
fn dominance_text(alloc: Global, symbols: &Symbols<'_>) -> Result<Vec<u8>, AllocError>
    ensures { IfOk result (λ text. text.items ≡ spaced (sensitivity_names symbols.now)) }
{
    let names = sensitivity_names(alloc, symbols)?;
    let mut text = Vec::new(alloc);
    push_spaced(&mut text, &names)?;
    Ok(text)
}

// The names of the declared sensitivities, in the order of their values.
#[tactic(auto, unfolding(crate::specs::PropertyEntries::sensitivity_names))]
fn sensitivity_names<'a>(alloc: Global, symbols: &Symbols<'a>) -> Result<Vec<&'a [u8]>, AllocError>
    ensures { IfOk result (λ names. map (λ name. name.now) names.items ≡ sensitivity_names symbols.now) }
{
    let mut names = Vec::new(alloc);
    let mut value = 0;
    'values: while value < symbols.prims(TableKind::Levels) {
        value += 1;
        push_declared(&mut names, symbols, value)?;
    }
    Ok(names)
}

// Adds the name of a sensitivity, where it is declared.
fn push_declared<'a>(
    names: &mut Vec<&'a [u8]>,
    symbols: &Symbols<'a>,
    value: u32,
) -> Result<(), AllocError>
    ensures { OnOk result (map (λ name. name.now) names.new.items ≡ map (λ name. name.now) names.old.items ++ filter_map (name_in symbols.now Levels) (value ∷ [])) }
{
    match symbols.name_of(TableKind::Levels, value) {
        Some(name) => Ok(names.push(name)?),
        None => Ok(()),
    }
}

// Adds names with a space between each two.
fn push_spaced(buffer: &mut Vec<u8>, names: &[&[u8]]) -> Result<(), AllocError>
    ensures { OnOk result (buffer.new.items ≡ buffer.old.items ++ spaced (map (λ name. name.now) names.now)) }
{
    match names.split_first() {
        None => Ok(()),
        Some((first, rest)) => {
            buffer.extend_from_slice(first)?;
            push_listed(buffer, rest)
        }
    }
}

// Adds names with a space before each.
fn push_listed(buffer: &mut Vec<u8>, names: &[&[u8]]) -> Result<(), AllocError>
    ensures { OnOk result (buffer.new.items ≡ buffer.old.items ++ listed (map (λ name. name.now) names.now)) }
{
    for name in names {
        buffer.push(b' ')?;
        buffer.extend_from_slice(name)?;
    }
    Ok(())
}
