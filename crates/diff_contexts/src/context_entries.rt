//! The entries of a table of contexts.

ghost use Rattle.std.specs.Prelude.{◌≡◌, ◌<◌, ◌++◌, ℕ, List, IfOk, OnOk, length, map};
ghost use Rattle.pol_symbols.specs.PolicySymbols.{name_in};
ghost use Rattle.diff_entries.specs.Entries.{Entry};

use diff_entries::{Entries, Key, Part};
use info_contexts::LinedEntry;
use pol_contexts::{EntryKind, EntryView};
use pol_cursor::Records;
use pol_symbols::Symbols;
use std::alloc::{AllocError, Global};
use std::marker::Model;

/// A context of an object that is compared by what it is for.
pub trait ComparedEntry: LinedEntry {
    ghost use Rattle.std.specs.Prelude.{◌≡◌, ◌++◌, ℕ, List, IfOk, OnOk};
    ghost use Rattle.pol_symbols.specs.declared.symbols.Symbols.{Symbols};
    ghost use Rattle.diff_entries.specs.declared.Part.{Part};

    /// What an entry is for.
    ghost key_of: { Self → List (List ℕ) };

    /// Its contexts, with the names of symbols.
    ghost parts_of: { Symbols → Self → List Part };

    /// The beginning of its line.
    ghost head_of: { Self → List ℕ };

    /// The key of the entry that a view shows.
    fn key(alloc: Global, entry: &EntryView<'_, Self>) -> Result<Key, AllocError>
        ensures { IfOk result (λ key. key ≡ key_of entry.now.value) };

    /// Its parts.
    fn parts<'a>(
        alloc: Global,
        symbols: &Symbols<'a>,
        entry: &EntryView<'_, Self>,
    ) -> Result<Vec<Part<'a>>, AllocError>
        ensures { IfOk result (λ parts. parts.items ≡ parts_of symbols.now entry.now.value) };

    /// Adds the beginning of its line.
    fn push_head(buffer: &mut Vec<u8>, entry: &EntryView<'_, Self>) -> Result<(), AllocError>
        ensures { OnOk result (buffer.new.items ≡ buffer.old.items ++ head_of entry.now.value) };
}

/// The entries of a table, in the order of the file. Contracts see them.
#[derive(Drop)]
pub struct ContextEntries<'p, 'a, R: ComparedEntry, const TABLE: u8> {
    entries: &'p Records<'a, EntryKind<R, TABLE>>,
    symbols: &'p Symbols<'a>,
}

impl<'p, 'a, R: ComparedEntry, const TABLE: u8> Model for ContextEntries<'p, 'a, R, TABLE> {
    ghost use Rattle.std.specs.Prelude.{List, map};
    ghost use Rattle.pol_symbols.specs.PolicySymbols.{name_in};
    ghost use Rattle.diff_entries.specs.Entries.{Entry};

    ghost Value = { List Entry };

    ghost view = { λ l. map (λ entry. record { key = R.key_of entry.value; parts = R.parts_of l.symbols.now entry.value; statement = R.line (name_in l.symbols.now) entry.value; head = R.head_of entry.value }) l.entries.now };
}

impl<'p, 'a, R: ComparedEntry, const TABLE: u8> ContextEntries<'p, 'a, R, TABLE> {
    /// The entries of these records, with the names of these symbols.
    pub fn new(
        entries: &'p Records<'a, EntryKind<R, TABLE>>,
        symbols: &'p Symbols<'a>,
    ) -> ContextEntries<'p, 'a, R, TABLE>
        ensures { result ≡ map (λ entry. record { key = R.key_of entry.value; parts = R.parts_of symbols.now entry.value; statement = R.line (name_in symbols.now) entry.value; head = R.head_of entry.value }) entries.now }
    {
        ContextEntries { entries, symbols }
    }

    /// How many there are.
    #[tactic(auto, using(crate::proofs::RecordEntries::as_many))]
    pub fn count(&self) -> u32
        ensures { result ≡ length self.now }
    {
        self.entries.len()
    }
}

impl<'p, 'a, R: ComparedEntry, const TABLE: u8> Entries for ContextEntries<'p, 'a, R, TABLE> {
    ghost entries = { λ entries. entries };

    #[tactic(auto, using(crate::proofs::RecordEntries::as_many))]
    fn len(&self) -> usize {
        self.entries.len() as usize
    }

    #[tactic(auto, using(crate::proofs::RecordEntries::as_many, crate::proofs::RecordEntries::key_at))]
    fn key(&self, alloc: Global, number: usize) -> Result<Key, AllocError> {
        let number = number_among(number, self.entries.len());
        R::key(alloc, &self.entries.view(number))
    }

    #[tactic(auto, using(crate::proofs::RecordEntries::as_many, crate::proofs::RecordEntries::parts_at))]
    fn parts(&self, alloc: Global, number: usize) -> Result<Vec<Part<'_>>, AllocError> {
        let number = number_among(number, self.entries.len());
        R::parts(alloc, self.symbols, &self.entries.view(number))
    }

    #[tactic(auto, using(crate::proofs::RecordEntries::as_many, crate::proofs::RecordEntries::statement_at))]
    fn push_statement(&self, number: usize, buffer: &mut Vec<u8>) -> Result<(), AllocError> {
        let number = number_among(number, self.entries.len());
        R::push_line(buffer, &self.entries.view(number), self.symbols)
    }

    #[tactic(auto, using(crate::proofs::RecordEntries::as_many, crate::proofs::RecordEntries::head_at))]
    fn push_head(&self, number: usize, buffer: &mut Vec<u8>) -> Result<(), AllocError> {
        let number = number_among(number, self.entries.len());
        R::push_head(buffer, &self.entries.view(number))
    }
}

/// A number below a count.
pub(crate) fn number_among(number: usize, count: u32) -> u32
    requires { number < count }
    ensures { result ≡ number }
{
    number as u32
}
