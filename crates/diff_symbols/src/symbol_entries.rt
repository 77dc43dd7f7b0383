//! The entries of commons, roles, users and booleans.

ghost use Rattle.std.specs.Prelude.{◌≡◌, ◌<◌, ◌++◌, true, IfOk, OnOk};
ghost use Rattle.pol_symbols.specs.PolicySymbols.{count_in};
ghost use Rattle.info_symbols.specs.SymbolLines.{symbol_lines};
ghost use Rattle.diff_symbols.specs.SymbolEntries.{symbol_entries, symbol_entry};

use crate::record_texts::{name_key, push_symbol_head};
use crate::symbol_parts::parts_of_number;
use diff_entries::{Entries, Key, Part};
use info_lines::{LineText, primary_order};
use info_symbols::SymbolLines;
use pol_fields::TableKind;
use pol_symbols::Symbols;
use std::alloc::{AllocError, Global};
use std::marker::Model;

/// The entries of the primary records of a table, in the order of their names. Contracts see them.
#[derive(Drop)]
pub struct SymbolEntries<'p, 'a> {
    symbols: &'p Symbols<'a>,
    table: TableKind,
    statements: SymbolLines<'p, 'a>,
    numbers: Vec<u32>,
}

impl<'p, 'a> Model for SymbolEntries<'p, 'a> {
    ghost use Rattle.std.specs.Prelude.{◌≡◌, ◌<◌, true, List, map};
    ghost use Rattle.std.specs.List.{All};
    ghost use Rattle.pol_symbols.specs.PolicySymbols.{count_in};
    ghost use Rattle.info_symbols.specs.SymbolLines.{symbol_lines};
    ghost use Rattle.diff_entries.specs.Entries.{Entry};
    ghost use Rattle.diff_symbols.specs.SymbolEntries.{symbol_entry};

    ghost Value = { List Entry };

    ghost view = { λ e. map (symbol_entry e.symbols.now e.table) e.numbers.items };

    ghost invariant = { λ e. (e.statements ≡ symbol_lines e.symbols.now e.table true) × All (λ number. number < count_in e.symbols.now e.table) e.numbers.items };
}

impl<'p, 'a> SymbolEntries<'p, 'a> {
    /// The entries of a table of these symbols.
    pub fn new(
        alloc: Global,
        symbols: &'p Symbols<'a>,
        table: TableKind,
    ) -> Result<SymbolEntries<'p, 'a>, AllocError>
        ensures { IfOk result (λ entries. entries ≡ symbol_entries symbols.now table) }
    {
        let statements = SymbolLines::new(alloc, symbols, table, true)?;
        let numbers = primary_order(alloc, symbols, table)?;
        Ok(SymbolEntries {
            symbols,
            table,
            statements,
            numbers,
        })
    }
}

impl<'p, 'a> Entries for SymbolEntries<'p, 'a> {
    ghost entries = { λ entries. entries };

    #[tactic(auto, using(crate::proofs::ListedNumbers::as_many))]
    fn len(&self) -> usize {
        self.numbers.len()
    }

    #[tactic(auto, using(crate::proofs::ListedNumbers::as_many, crate::proofs::ListedNumbers::each_is, diff_parts::proofs::NumberedEntries::key_at))]
    fn key(&self, alloc: Global, number: usize) -> Result<Key, AllocError> {
        symbol_key(alloc, self.symbols, self.table, self.numbers[number])
    }

    #[tactic(auto, using(crate::proofs::ListedNumbers::as_many, crate::proofs::ListedNumbers::each_is, diff_parts::proofs::NumberedEntries::parts_at))]
    fn parts(&self, alloc: Global, number: usize) -> Result<Vec<Part<'_>>, AllocError> {
        symbol_parts(alloc, self.symbols, self.table, self.numbers[number])
    }

    #[tactic(auto, using(crate::proofs::ListedNumbers::as_many, crate::proofs::ListedNumbers::each_is, diff_parts::proofs::NumberedEntries::statement_at))]
    fn push_statement(&self, number: usize, buffer: &mut Vec<u8>) -> Result<(), AllocError> {
        push_statement(
            buffer,
            &self.statements,
            self.symbols,
            self.table,
            self.numbers[number],
        )
    }

    #[tactic(auto, using(crate::proofs::ListedNumbers::as_many, crate::proofs::ListedNumbers::each_is, diff_parts::proofs::NumberedEntries::head_at))]
    fn push_head(&self, number: usize, buffer: &mut Vec<u8>) -> Result<(), AllocError> {
        push_head(buffer, self.symbols, self.table, self.numbers[number])
    }
}

// The key of the record of a number.
#[tactic(auto, unfolding(crate::specs::SymbolEntries::symbol_entry))]
fn symbol_key(
    alloc: Global,
    symbols: &Symbols<'_>,
    table: TableKind,
    number: u32,
) -> Result<Key, AllocError>
    requires { number < count_in symbols.now table }
    ensures { IfOk result (λ key. key ≡ (symbol_entry symbols.now table number).key) }
{
    name_key(alloc, symbols, table, number)
}

// Its parts.
#[tactic(auto, unfolding(crate::specs::SymbolEntries::symbol_entry))]
fn symbol_parts<'a>(
    alloc: Global,
    symbols: &Symbols<'a>,
    table: TableKind,
    number: u32,
) -> Result<Vec<Part<'a>>, AllocError>
    requires { number < count_in symbols.now table }
    ensures { IfOk result (λ parts. parts.items ≡ (symbol_entry symbols.now table number).parts) }
{
    parts_of_number(alloc, symbols, table, number)
}

// Adds its statement.
#[tactic(auto, unfolding(crate::specs::SymbolEntries::symbol_entry), using(crate::proofs::RecordTexts::has_statement))]
fn push_statement(
    buffer: &mut Vec<u8>,
    statements: &SymbolLines<'_, '_>,
    symbols: &Symbols<'_>,
    table: TableKind,
    number: u32,
) -> Result<(), AllocError>
    requires there { number < count_in symbols.now table }
    requires lines { statements.now ≡ symbol_lines symbols.now table true }
    ensures { OnOk result (buffer.new.items ≡ buffer.old.items ++ (symbol_entry symbols.now table number).statement) }
{
    statements.push_text(number, buffer)
}

// Adds the beginning of it.
#[tactic(auto, unfolding(crate::specs::SymbolEntries::symbol_entry))]
fn push_head(
    buffer: &mut Vec<u8>,
    symbols: &Symbols<'_>,
    table: TableKind,
    number: u32,
) -> Result<(), AllocError>
    requires { number < count_in symbols.now table }
    ensures { OnOk result (buffer.new.items ≡ buffer.old.items ++ (symbol_entry symbols.now table number).head) }
{
    push_symbol_head(buffer, symbols, table, number)
}
