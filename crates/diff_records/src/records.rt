//! The entries of records that are kept in memory.

ghost use Rattle.std.specs.Prelude.{◌≡◌, ◌<◌, ◌++◌, List, IfOk, OnOk, length, map};
ghost use Rattle.pol_symbols.specs.declared.symbols.Symbols.{Symbols};
ghost use Rattle.diff_entries.specs.Entries.{Entry, entry_at};

use diff_entries::{Entries, Key, Part};
use pol_symbols::Symbols;
use std::alloc::{AllocError, Global};
use std::marker::Model;

/// A record of a policy that is compared by names.
pub trait ComparedRecord {
    ghost use Rattle.std.specs.Prelude.{◌≡◌, ◌++◌, IfOk, OnOk};
    ghost use Rattle.pol_symbols.specs.declared.symbols.Symbols.{Symbols};
    ghost use Rattle.diff_entries.specs.Entries.{Entry};

    /// The entry of a record, with the names of symbols.
    ghost entry: { Symbols → Self → Entry };

    /// Its key.
    fn key(&self, alloc: Global, symbols: &Symbols<'_>) -> Result<Key, AllocError>
        ensures { IfOk result (λ key. key ≡ (entry symbols.now self.now).key) };

    /// Its parts.
    fn parts<'r>(
        &'r self,
        alloc: Global,
        symbols: &'r Symbols<'_>,
    ) -> Result<Vec<Part<'r>>, AllocError>
        ensures { IfOk result (λ parts. parts.items ≡ (entry symbols.now self.now).parts) };

    /// Adds its statement.
    fn push_statement(&self, symbols: &Symbols<'_>, buffer: &mut Vec<u8>) -> Result<(), AllocError>
        ensures { OnOk result (buffer.new.items ≡ buffer.old.items ++ (entry symbols.now self.now).statement) };

    /// Adds the beginning of its statement.
    fn push_head(&self, symbols: &Symbols<'_>, buffer: &mut Vec<u8>) -> Result<(), AllocError>
        ensures { OnOk result (buffer.new.items ≡ buffer.old.items ++ (entry symbols.now self.now).head) };
}

/// The entries of records. Contracts see them.
#[derive(Drop)]
pub struct RecordEntries<'p, 'a, R: ComparedRecord + Drop> {
    symbols: &'p Symbols<'a>,
    records: Vec<R>,
}

impl<'p, 'a, R: ComparedRecord + Drop> Model for RecordEntries<'p, 'a, R> {
    ghost use Rattle.std.specs.Prelude.{List, map};
    ghost use Rattle.diff_entries.specs.Entries.{Entry};

    ghost Value = { List Entry };

    ghost view = { λ e. map (R.entry e.symbols.now) e.records.items };
}

impl<'p, 'a, R: ComparedRecord + Drop> RecordEntries<'p, 'a, R> {
    /// The entries of these records, with the names of these symbols.
    pub fn new(symbols: &'p Symbols<'a>, records: Vec<R>) -> RecordEntries<'p, 'a, R>
        ensures { result ≡ map (R.entry symbols.now) records.items }
    {
        RecordEntries { symbols, records }
    }
}

impl<'p, 'a, R: ComparedRecord + Drop> Entries for RecordEntries<'p, 'a, R> {
    ghost entries = { λ entries. entries };

    fn len(&self) -> usize {
        self.records.len()
    }

    #[tactic(auto, using(crate::proofs::NumberedRecords::key_at))]
    fn key(&self, alloc: Global, number: usize) -> Result<Key, AllocError> {
        self.records[number].key(alloc, self.symbols)
    }

    #[tactic(auto, using(crate::proofs::NumberedRecords::parts_at))]
    fn parts(&self, alloc: Global, number: usize) -> Result<Vec<Part<'_>>, AllocError> {
        self.records[number].parts(alloc, self.symbols)
    }

    #[tactic(auto, using(crate::proofs::NumberedRecords::statement_at))]
    fn push_statement(&self, number: usize, buffer: &mut Vec<u8>) -> Result<(), AllocError> {
        self.records[number].push_statement(self.symbols, buffer)
    }

    #[tactic(auto, using(crate::proofs::NumberedRecords::head_at))]
    fn push_head(&self, number: usize, buffer: &mut Vec<u8>) -> Result<(), AllocError> {
        self.records[number].push_head(self.symbols, buffer)
    }
}
