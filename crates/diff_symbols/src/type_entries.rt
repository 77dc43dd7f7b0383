//! The entries of types.

ghost use Rattle.std.specs.Prelude.{◌≡◌, ◌<◌, ◌++◌, true, IfOk, OnOk, length};
ghost use Rattle.pol_fields.specs.declared.TableKind.TheVariants.{Types};
ghost use Rattle.info_symbols.specs.Inner.AliasLists.{AreAliases};
ghost use Rattle.info_symbols.specs.declared.TypeSet.TheVariants.{PlainTypes};
ghost use Rattle.info_symbols.specs.TypeListings.{type_lines};
ghost use Rattle.diff_symbols.specs.TypeEntries.{type_entries, type_entry};

use crate::aliased_entries::aliases_at;
use crate::record_texts::{name_at, name_key, value_at};
use diff_entries::{Entries, Key, Label, Part};
use diff_parts::{names_part, one_part, push_named};
use info_lines::LineText;
use info_symbols::{Aliases, TypeLines, TypeSet, attribute_names, set_numbers};
use pol_fields::TableKind;
use pol_read::Policy;
use std::alloc::{AllocError, Global};
use std::marker::Model;

/// The entries of the types of a policy, in the order of their names. Contracts see them.
#[derive(Drop)]
pub struct TypeEntries<'p, 'a> {
    policy: &'p Policy<'a>,
    statements: TypeLines<'p, 'a>,
    aliases: Aliases<'a>,
    numbers: Vec<u32>,
}

impl<'p, 'a> Model for TypeEntries<'p, 'a> {
    ghost use Rattle.std.specs.Prelude.{◌≡◌, ◌<◌, true, List, length, map};
    ghost use Rattle.std.specs.List.{All};
    ghost use Rattle.pol_fields.specs.declared.TableKind.TheVariants.{Types};
    ghost use Rattle.info_symbols.specs.Inner.AliasLists.{AreAliases};
    ghost use Rattle.info_symbols.specs.declared.TypeSet.TheVariants.{PlainTypes};
    ghost use Rattle.info_symbols.specs.TypeListings.{type_lines};
    ghost use Rattle.diff_entries.specs.Entries.{Entry};
    ghost use Rattle.diff_symbols.specs.TypeEntries.{type_entry};

    ghost Value = { List Entry };

    ghost view = { λ e. map (type_entry e.policy.now) e.numbers.items };

    ghost invariant = { λ e. (e.statements ≡ type_lines e.policy.now PlainTypes true) × AreAliases true e.policy.now.symbols Types e.aliases × All (λ number. number < length e.policy.now.symbols.types.records) e.numbers.items };
}

impl<'p, 'a> TypeEntries<'p, 'a> {
    /// The entries of a policy's types.
    pub fn new(alloc: Global, policy: &'p Policy<'a>) -> Result<TypeEntries<'p, 'a>, AllocError>
        ensures { IfOk result (λ entries. entries ≡ type_entries policy.now) }
    {
        let statements = TypeLines::new(alloc, policy, TypeSet::PlainTypes, true)?;
        let aliases = Aliases::new(alloc, policy.symbols(), TableKind::Types, true)?;
        let numbers = set_numbers(alloc, policy, TypeSet::PlainTypes)?;
        Ok(TypeEntries {
            policy,
            statements,
            aliases,
            numbers,
        })
    }
}

impl<'p, 'a> Entries for TypeEntries<'p, 'a> {
    ghost entries = { λ entries. entries };

    #[tactic(auto, using(crate::proofs::ListedNumbers::as_many))]
    fn len(&self) -> usize {
        self.numbers.len()
    }

    #[tactic(auto, using(crate::proofs::ListedNumbers::as_many, crate::proofs::ListedNumbers::each_is, diff_parts::proofs::NumberedEntries::key_at))]
    fn key(&self, alloc: Global, number: usize) -> Result<Key, AllocError> {
        type_key(alloc, self.policy, self.numbers[number])
    }

    #[tactic(auto, using(crate::proofs::ListedNumbers::as_many, crate::proofs::ListedNumbers::each_is, diff_parts::proofs::NumberedEntries::parts_at))]
    fn parts(&self, alloc: Global, number: usize) -> Result<Vec<Part<'_>>, AllocError> {
        type_parts(alloc, self.policy, &self.aliases, self.numbers[number])
    }

    #[tactic(auto, using(crate::proofs::ListedNumbers::as_many, crate::proofs::ListedNumbers::each_is, diff_parts::proofs::NumberedEntries::statement_at))]
    fn push_statement(&self, number: usize, buffer: &mut Vec<u8>) -> Result<(), AllocError> {
        push_statement(buffer, self.policy, &self.statements, self.numbers[number])
    }

    #[tactic(auto, using(crate::proofs::ListedNumbers::as_many, crate::proofs::ListedNumbers::each_is, diff_parts::proofs::NumberedEntries::head_at))]
    fn push_head(&self, number: usize, buffer: &mut Vec<u8>) -> Result<(), AllocError> {
        push_head(buffer, self.policy, self.numbers[number])
    }
}

// The key of the type of a number.
#[tactic(auto, unfolding(crate::specs::TypeEntries::type_entry))]
fn type_key(alloc: Global, policy: &Policy<'_>, number: u32) -> Result<Key, AllocError>
    requires { number < length policy.now.symbols.types.records }
    ensures { IfOk result (λ key. key ≡ (type_entry policy.now number).key) }
{
    name_key(alloc, policy.symbols(), TableKind::Types, number)
}

// Its parts: its aliases and its attributes.
#[tactic(auto, unfolding(crate::specs::TypeEntries::type_entry))]
fn type_parts<'a>(
    alloc: Global,
    policy: &Policy<'a>,
    aliases: &Aliases<'a>,
    number: u32,
) -> Result<Vec<Part<'a>>, AllocError>
    requires there { number < length policy.now.symbols.types.records }
    requires aliases { AreAliases true policy.now.symbols Types aliases.now }
    ensures { IfOk result (λ parts. parts.items ≡ (type_entry policy.now number).parts) }
{
    let symbols = policy.symbols();
    let names = aliases_at(alloc, symbols, TableKind::Types, aliases, number)?;
    let attributes = attribute_names(alloc, policy, value_at(symbols, TableKind::Types, number))?;
    let mut parts = one_part(alloc, names_part(Label::Alias, names))?;
    parts.push(names_part(Label::Attributes, attributes))?;
    Ok(parts)
}

// Adds its statement.
#[tactic(auto, unfolding(crate::specs::TypeEntries::type_entry), using(crate::proofs::RecordTexts::has_type_line))]
fn push_statement(
    buffer: &mut Vec<u8>,
    policy: &Policy<'_>,
    statements: &TypeLines<'_, '_>,
    number: u32,
) -> Result<(), AllocError>
    requires there { number < length policy.now.symbols.types.records }
    requires lines { statements.now ≡ type_lines policy.now PlainTypes true }
    ensures { OnOk result (buffer.new.items ≡ buffer.old.items ++ (type_entry policy.now number).statement) }
{
    statements.push_text(number, buffer)
}

// Adds the beginning of it.
#[tactic(auto, unfolding(crate::specs::TypeEntries::type_entry))]
fn push_head(buffer: &mut Vec<u8>, policy: &Policy<'_>, number: u32) -> Result<(), AllocError>
    requires { number < length policy.now.symbols.types.records }
    ensures { OnOk result (buffer.new.items ≡ buffer.old.items ++ (type_entry policy.now number).head) }
{
    push_named(
        buffer,
        b"type ",
        name_at(policy.symbols(), TableKind::Types, number),
    )
}
