//! The entries of permissive types.

ghost use Rattle.std.specs.Prelude.{◌≡◌, ◌<◌, ◌++◌, true, IfOk, OnOk, length};
ghost use Rattle.info_symbols.specs.declared.TypeSet.TheVariants.{PermissiveTypes};
ghost use Rattle.info_symbols.specs.TypeListings.{type_lines};
ghost use Rattle.diff_symbols.specs.TypeEntries.{permissive_entries, permissive_entry};

use crate::record_texts::{name_at, name_key};
use diff_entries::{Entries, Key, Part};
use diff_parts::push_named;
use info_lines::LineText;
use info_symbols::{TypeLines, TypeSet, set_numbers};
use pol_fields::TableKind;
use pol_read::Policy;
use std::alloc::{AllocError, Global};
use std::marker::Model;

/// The entries of the permissive types of a policy, in the order of their names. Contracts see them.
#[derive(Drop)]
pub struct PermissiveEntries<'p, 'a> {
    policy: &'p Policy<'a>,
    statements: TypeLines<'p, 'a>,
    numbers: Vec<u32>,
}

impl<'p, 'a> Model for PermissiveEntries<'p, 'a> {
    ghost use Rattle.std.specs.Prelude.{◌≡◌, ◌<◌, true, List, length, map};
    ghost use Rattle.std.specs.List.{All};
    ghost use Rattle.info_symbols.specs.declared.TypeSet.TheVariants.{PermissiveTypes};
    ghost use Rattle.info_symbols.specs.TypeListings.{type_lines};
    ghost use Rattle.diff_entries.specs.Entries.{Entry};
    ghost use Rattle.diff_symbols.specs.TypeEntries.{permissive_entry};

    ghost Value = { List Entry };

    ghost view = { λ e. map (permissive_entry e.policy.now) e.numbers.items };

    ghost invariant = { λ e. (e.statements ≡ type_lines e.policy.now PermissiveTypes true) × All (λ number. number < length e.policy.now.symbols.types.records) e.numbers.items };
}

impl<'p, 'a> PermissiveEntries<'p, 'a> {
    /// The entries of a policy's permissive types.
    pub fn new(
        alloc: Global,
        policy: &'p Policy<'a>,
    ) -> Result<PermissiveEntries<'p, 'a>, AllocError>
        ensures { IfOk result (λ entries. entries ≡ permissive_entries policy.now) }
    {
        let statements = TypeLines::new(alloc, policy, TypeSet::PermissiveTypes, true)?;
        let numbers = set_numbers(alloc, policy, TypeSet::PermissiveTypes)?;
        Ok(PermissiveEntries {
            policy,
            statements,
            numbers,
        })
    }
}

impl<'p, 'a> Entries for PermissiveEntries<'p, 'a> {
    ghost entries = { λ entries. entries };

    #[tactic(auto, using(crate::proofs::ListedNumbers::as_many))]
    fn len(&self) -> usize {
        self.numbers.len()
    }

    #[tactic(auto, using(crate::proofs::ListedNumbers::as_many, crate::proofs::ListedNumbers::each_is, diff_parts::proofs::NumberedEntries::key_at))]
    fn key(&self, alloc: Global, number: usize) -> Result<Key, AllocError> {
        permissive_key(alloc, self.policy, self.numbers[number])
    }

    #[tactic(auto, using(crate::proofs::ListedNumbers::as_many, crate::proofs::ListedNumbers::each_is, diff_parts::proofs::NumberedEntries::parts_at))]
    fn parts(&self, alloc: Global, number: usize) -> Result<Vec<Part<'_>>, AllocError> {
        no_parts(alloc, self.policy, self.numbers[number])
    }

    #[tactic(auto, using(crate::proofs::ListedNumbers::as_many, crate::proofs::ListedNumbers::each_is, diff_parts::proofs::NumberedEntries::statement_at))]
    fn push_statement(&self, number: usize, buffer: &mut Vec<u8>) -> Result<(), AllocError> {
        push_statement(buffer, self.policy, &self.statements, self.numbers[number])
    }

    #[tactic(auto, using(crate::proofs::ListedNumbers::as_many, crate::proofs::ListedNumbers::each_is, diff_parts::proofs::NumberedEntries::head_at))]
    fn push_head(&self, number: usize, buffer: &mut Vec<u8>) -> Result<(), AllocError> {
        push_head(buffer, self.policy, self.numbers[number])
    }
}

// The key of the permissive type of a number.
#[tactic(auto, unfolding(crate::specs::TypeEntries::permissive_entry))]
fn permissive_key(alloc: Global, policy: &Policy<'_>, number: u32) -> Result<Key, AllocError>
    requires { number < length policy.now.symbols.types.records }
    ensures { IfOk result (λ key. key ≡ (permissive_entry policy.now number).key) }
{
    name_key(alloc, policy.symbols(), TableKind::Types, number)
}

// A permissive type has no parts.
#[tactic(auto, unfolding(crate::specs::TypeEntries::permissive_entry))]
fn no_parts<'a>(
    alloc: Global,
    policy: &Policy<'a>,
    number: u32,
) -> Result<Vec<Part<'a>>, AllocError>
    ensures { IfOk result (λ parts. parts.items ≡ (permissive_entry policy.now number).parts) }
{
    Ok(Vec::new(alloc))
}

// Adds its statement.
#[tactic(auto, unfolding(crate::specs::TypeEntries::permissive_entry), using(crate::proofs::RecordTexts::has_type_line))]
fn push_statement(
    buffer: &mut Vec<u8>,
    policy: &Policy<'_>,
    statements: &TypeLines<'_, '_>,
    number: u32,
) -> Result<(), AllocError>
    requires there { number < length policy.now.symbols.types.records }
    requires lines { statements.now ≡ type_lines policy.now PermissiveTypes true }
    ensures { OnOk result (buffer.new.items ≡ buffer.old.items ++ (permissive_entry policy.now number).statement) }
{
    statements.push_text(number, buffer)
}

// Adds the beginning of it.
#[tactic(auto, unfolding(crate::specs::TypeEntries::permissive_entry))]
fn push_head(buffer: &mut Vec<u8>, policy: &Policy<'_>, number: u32) -> Result<(), AllocError>
    requires { number < length policy.now.symbols.types.records }
    ensures { OnOk result (buffer.new.items ≡ buffer.old.items ++ (permissive_entry policy.now number).head) }
{
    push_named(
        buffer,
        b"permissive ",
        name_at(policy.symbols(), TableKind::Types, number),
    )
}
