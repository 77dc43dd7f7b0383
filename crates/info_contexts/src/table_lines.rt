// The lines of tables of contexts.
ghost use Rattle.std.specs.Prelude.{◌≡◌, IfOk, map, option_map};
ghost use Rattle.pol_symbols.specs.PolicySymbols.{name_in};
ghost use Rattle.info_lines.specs.Inner.Listings.{HasLine, line_of};
ghost use Rattle.info_contexts.specs.NamedEntries.{of_name};

use crate::entry_names::{EntryNames, numbers_of_name};
use info_lines::{FileLines, LineText, NumberedLines};
use pol_contexts::{Entry, EntryKind, EntryView, Standing};
use pol_cursor::{Names, Records};
use pol_symbols::Symbols;
use std::alloc::{AllocError, Global};
use std::marker::Model;

/// An entry that has a line.
pub trait LinedEntry: Entry {
    ghost use Rattle.std.specs.Prelude.{◌≡◌, ◌++◌, ℕ, List, OnOk};
    ghost use Rattle.pol_cursor.specs.References.{Named};

    /// The line of an entry, with the names of symbols.
    ghost line: { Named → Self → List ℕ };

    /// Appends the line of the entry that a view shows.
    fn push_line<N: Names>(
        buffer: &mut Vec<u8>,
        entry: &EntryView<'_, Self>,
        names: &N,
    ) -> Result<(), AllocError>
        ensures { OnOk result (buffer.new.items ≡ buffer.old.items ++ line (N.named names.now) entry.now.value) };
}

/// An entry that has a line, and a name that it is asked for by.
pub trait NamedEntry: LinedEntry {
    ghost use Rattle.std.specs.Prelude.{◌≡◌, ℕ, List};

    /// The name of an entry.
    ghost name: { Self → List ℕ };

    /// The name of the entry that a view shows.
    fn name<'a>(entry: &EntryView<'a, Self>) -> &'a [u8]
        ensures { result.now ≡ name entry.now.value };
}

impl<'a, R: NamedEntry, const TABLE: u8> EntryNames for Records<'a, EntryKind<R, TABLE>> {
    ghost names = { λ entries. map (λ entry. R.name entry.value) entries };

    #[tactic(auto, using(info_lines::proofs::ListingLines::line_at))]
    fn is_named(&self, _: Global, number: u32, name: &[u8]) -> Result<bool, AllocError> {
        Ok(R::name(&self.view(number)) == name)
    }
}

/// The lines of a table, by numbers in file order. Contracts see the listing.
#[derive(Drop)]
pub struct TableLines<'p, 'a, R: LinedEntry, const TABLE: u8> {
    entries: &'p Records<'a, EntryKind<R, TABLE>>,
    symbols: &'p Symbols<'a>,
}

impl<'p, 'a, R: LinedEntry, const TABLE: u8> Model for TableLines<'p, 'a, R, TABLE> {
    ghost use Rattle.std.specs.Prelude.{ℕ, List, map};
    ghost use Rattle.pol_symbols.specs.PolicySymbols.{name_in};

    ghost Value = { List (List ℕ) };

    ghost view = { λ l. map (λ entry. R.line (name_in l.symbols.now) entry.value) l.entries.now };
}

impl<'p, 'a, R: LinedEntry, const TABLE: u8> TableLines<'p, 'a, R, TABLE> {
    /// The lines of these entries, with the names of these symbols.
    pub fn new(
        entries: &'p Records<'a, EntryKind<R, TABLE>>,
        symbols: &'p Symbols<'a>,
    ) -> TableLines<'p, 'a, R, TABLE>
        ensures { result ≡ map (λ entry. R.line (name_in symbols.now) entry.value) entries.now }
    {
        TableLines { entries, symbols }
    }

    /// All of them, in file order.
    #[tactic(auto, using(info_lines::proofs::FileOrder::all_there, info_lines::proofs::FileOrder::all_lines, info_lines::proofs::FileOrder::as_many))]
    pub fn all(
        entries: &'p Records<'a, EntryKind<R, TABLE>>,
        symbols: &'p Symbols<'a>,
    ) -> FileLines<TableLines<'p, 'a, R, TABLE>>
        ensures { result ≡ map (λ entry. R.line (name_in symbols.now) entry.value) entries.now }
    {
        FileLines::new(TableLines::new(entries, symbols), entries.len())
    }
}

impl<'p, 'a, R: NamedEntry, const TABLE: u8> TableLines<'p, 'a, R, TABLE> {
    /// The lines of the entries of a name, or of all where none is given, in file order.
    #[tactic(auto, using(crate::proofs::NamedEntries::chosen_there, crate::proofs::NamedEntries::chosen_lines, info_lines::proofs::FileOrder::as_many))]
    pub fn named(
        alloc: Global,
        entries: &'p Records<'a, EntryKind<R, TABLE>>,
        symbols: &'p Symbols<'a>,
        name: Option<&[u8]>,
    ) -> Result<NumberedLines<TableLines<'p, 'a, R, TABLE>>, AllocError>
        ensures { IfOk result (λ lines. lines ≡ map (λ entry. R.line (name_in symbols.now) entry.value) (of_name (λ entry. R.name entry.value) (option_map (λ name. name.now) name.entry) entries.now)) }
    {
        let numbers = numbers_of_name(alloc, entries, entries.len(), name)?;
        let lines = TableLines::new(entries, symbols);
        Ok(NumberedLines::new(lines, numbers))
    }
}

impl<'p, 'a, R: LinedEntry, const TABLE: u8> LineText for TableLines<'p, 'a, R, TABLE> {
    ghost has = { HasLine };

    ghost text = { line_of };

    #[tactic(auto, using(info_lines::proofs::ListingLines::line_at))]
    fn push_text(&self, number: u32, buffer: &mut Vec<u8>) -> Result<(), AllocError> {
        R::push_line(buffer, &self.entries.view(number), self.symbols)
    }
}
