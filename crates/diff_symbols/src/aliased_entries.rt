//! The entries of sensitivities and categories.

ghost use Rattle.std.specs.Prelude.{◌≡◌, ◌<◌, ◌++◌, true, IfOk, OnOk, map};
ghost use Rattle.pol_symbols.specs.PolicySymbols.{count_in};
ghost use Rattle.info_symbols.specs.Inner.AliasLists.{AreAliases};
ghost use Rattle.diff_symbols.specs.SymbolEntries.{aliased_entries, aliased_entry, aliases_at};

use crate::record_texts::{name_key, push_symbol_head, value_at};
use diff_entries::{Entries, Key, Label, Part};
use diff_parts::{names_part, one_part};
use info_lines::primary_order;
use info_symbols::{Aliases, push_aliases};
use pol_fields::TableKind;
use pol_symbols::Symbols;
use std::alloc::{AllocError, Global};
use std::marker::Model;

/// The entries of the primary records of a table whose aliases are compared, in the order of their names. Contracts see them.
#[derive(Drop)]
pub struct AliasedEntries<'p, 'a> {
    symbols: &'p Symbols<'a>,
    table: TableKind,
    aliases: Aliases<'a>,
    numbers: Vec<u32>,
}

impl<'p, 'a> Model for AliasedEntries<'p, 'a> {
    ghost use Rattle.std.specs.Prelude.{◌<◌, true, List, map};
    ghost use Rattle.std.specs.List.{All};
    ghost use Rattle.pol_symbols.specs.PolicySymbols.{count_in};
    ghost use Rattle.info_symbols.specs.Inner.AliasLists.{AreAliases};
    ghost use Rattle.diff_entries.specs.Entries.{Entry};
    ghost use Rattle.diff_symbols.specs.SymbolEntries.{aliased_entry};

    ghost Value = { List Entry };

    ghost view = { λ e. map (aliased_entry e.symbols.now e.table) e.numbers.items };

    ghost invariant = { λ e. AreAliases true e.symbols.now e.table e.aliases × All (λ number. number < count_in e.symbols.now e.table) e.numbers.items };
}

impl<'p, 'a> AliasedEntries<'p, 'a> {
    /// The entries of a table of these symbols.
    pub fn new(
        alloc: Global,
        symbols: &'p Symbols<'a>,
        table: TableKind,
    ) -> Result<AliasedEntries<'p, 'a>, AllocError>
        ensures { IfOk result (λ entries. entries ≡ aliased_entries symbols.now table) }
    {
        let aliases = Aliases::new(alloc, symbols, table, true)?;
        let numbers = primary_order(alloc, symbols, table)?;
        Ok(AliasedEntries {
            symbols,
            table,
            aliases,
            numbers,
        })
    }
}

impl<'p, 'a> Entries for AliasedEntries<'p, 'a> {
    ghost entries = { λ entries. entries };

    #[tactic(auto, using(crate::proofs::ListedNumbers::as_many))]
    fn len(&self) -> usize {
        self.numbers.len()
    }

    #[tactic(auto, using(crate::proofs::ListedNumbers::as_many, crate::proofs::ListedNumbers::each_is, diff_parts::proofs::NumberedEntries::key_at))]
    fn key(&self, alloc: Global, number: usize) -> Result<Key, AllocError> {
        aliased_key(alloc, self.symbols, self.table, self.numbers[number])
    }

    #[tactic(auto, using(crate::proofs::ListedNumbers::as_many, crate::proofs::ListedNumbers::each_is, diff_parts::proofs::NumberedEntries::parts_at))]
    fn parts(&self, alloc: Global, number: usize) -> Result<Vec<Part<'_>>, AllocError> {
        aliased_parts(
            alloc,
            self.symbols,
            self.table,
            &self.aliases,
            self.numbers[number],
        )
    }

    #[tactic(auto, using(crate::proofs::ListedNumbers::as_many, crate::proofs::ListedNumbers::each_is, diff_parts::proofs::NumberedEntries::statement_at))]
    fn push_statement(&self, number: usize, buffer: &mut Vec<u8>) -> Result<(), AllocError> {
        push_statement(
            buffer,
            self.symbols,
            self.table,
            &self.aliases,
            self.numbers[number],
        )
    }

    #[tactic(auto, using(crate::proofs::ListedNumbers::as_many, crate::proofs::ListedNumbers::each_is, diff_parts::proofs::NumberedEntries::head_at))]
    fn push_head(&self, number: usize, buffer: &mut Vec<u8>) -> Result<(), AllocError> {
        push_head(buffer, self.symbols, self.table, self.numbers[number])
    }
}

/// The names of the aliases of the record of a number.
#[tactic(auto, using(crate::proofs::RecordTexts::aliases_are))]
pub(crate) fn aliases_at<'a>(
    alloc: Global,
    symbols: &Symbols<'_>,
    table: TableKind,
    aliases: &Aliases<'a>,
    number: u32,
) -> Result<Vec<&'a [u8]>, AllocError>
    requires there { number < count_in symbols.now table }
    requires aliases { AreAliases true symbols.now table aliases.now }
    ensures { IfOk result (λ names. map (λ name. name.now) names.items ≡ aliases_at symbols.now table number) }
{
    aliases.names(alloc, value_at(symbols, table, number))
}

// The key of the record of a number.
#[tactic(auto, unfolding(crate::specs::SymbolEntries::aliased_entry))]
fn aliased_key(
    alloc: Global,
    symbols: &Symbols<'_>,
    table: TableKind,
    number: u32,
) -> Result<Key, AllocError>
    requires { number < count_in symbols.now table }
    ensures { IfOk result (λ key. key ≡ (aliased_entry symbols.now table number).key) }
{
    name_key(alloc, symbols, table, number)
}

// Its part: its aliases.
#[tactic(auto, unfolding(crate::specs::SymbolEntries::aliased_entry))]
fn aliased_parts<'a>(
    alloc: Global,
    symbols: &Symbols<'_>,
    table: TableKind,
    aliases: &Aliases<'a>,
    number: u32,
) -> Result<Vec<Part<'a>>, AllocError>
    requires there { number < count_in symbols.now table }
    requires aliases { AreAliases true symbols.now table aliases.now }
    ensures { IfOk result (λ parts. parts.items ≡ (aliased_entry symbols.now table number).parts) }
{
    let names = aliases_at(alloc, symbols, table, aliases, number)?;
    one_part(alloc, names_part(Label::Alias, names))
}

// Adds its statement.
#[tactic(auto, unfolding(crate::specs::SymbolEntries::aliased_entry), using(crate::proofs::RecordTexts::aliases_are))]
fn push_statement(
    buffer: &mut Vec<u8>,
    symbols: &Symbols<'_>,
    table: TableKind,
    aliases: &Aliases<'_>,
    number: u32,
) -> Result<(), AllocError>
    requires there { number < count_in symbols.now table }
    requires aliases { AreAliases true symbols.now table aliases.now }
    ensures { OnOk result (buffer.new.items ≡ buffer.old.items ++ (aliased_entry symbols.now table number).statement) }
{
    push_symbol_head(buffer, symbols, table, number)?;
    push_aliases(buffer, aliases, value_at(symbols, table, number))?;
    buffer.extend_from_slice(b";")
}

// Adds the beginning of it.
#[tactic(auto, unfolding(crate::specs::SymbolEntries::aliased_entry))]
fn push_head(
    buffer: &mut Vec<u8>,
    symbols: &Symbols<'_>,
    table: TableKind,
    number: u32,
) -> Result<(), AllocError>
    requires { number < count_in symbols.now table }
    ensures { OnOk result (buffer.new.items ≡ buffer.old.items ++ (aliased_entry symbols.now table number).head) }
{
    push_symbol_head(buffer, symbols, table, number)
}
