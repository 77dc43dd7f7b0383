// The lines of the contexts of file systems without labels.
ghost use Rattle.std.specs.Prelude.{◌≡◌, ◌++◌, OnOk};
ghost use Rattle.info_contexts.specs.GenfsLines.{place_text, class_word, genfs_line, genfs_listing};

use crate::contexts::push_context;
use crate::genfs_entry::GenfsEntry;
use info_lines::EntryText;
use pol_cursor::{Names, push_name};
use pol_fields::TableKind;
use pol_symbols::Symbols;
use pol_texts::push_name_text;
use std::alloc::AllocError;
use std::marker::Model;

/// The lines of the contexts of file systems without labels, one for each path, by numbers in file order. Contracts see
/// the listing.
#[derive(Drop)]
pub struct GenfsLines<'p, 'a> {
    entries: Vec<GenfsEntry<'a>>,
    symbols: &'p Symbols<'a>,
}

impl<'p, 'a> Model for GenfsLines<'p, 'a> {
    ghost use Rattle.std.specs.Prelude.{ℕ, List};
    ghost use Rattle.info_contexts.specs.GenfsLines.{genfs_listing};

    ghost Value = { List (List ℕ) };

    ghost view = { λ l. genfs_listing l.symbols.now l.entries.items };
}

impl<'p, 'a> GenfsLines<'p, 'a> {
    /// The lines of these paths, with the names of these symbols.
    pub fn new(entries: Vec<GenfsEntry<'a>>, symbols: &'p Symbols<'a>) -> GenfsLines<'p, 'a>
        ensures { result ≡ genfs_listing symbols.now entries.entry.items }
    {
        GenfsLines { entries, symbols }
    }
}

impl<'p, 'a> EntryText for GenfsLines<'p, 'a> {
    ghost lines = { λ lines. lines };

    #[tactic(auto, using(info_lines::proofs::FileOrder::as_many))]
    fn len(&self) -> usize {
        self.entries.len()
    }

    #[tactic(auto, using(info_lines::proofs::ListingLines::line_at))]
    fn push_text(&self, number: usize, buffer: &mut Vec<u8>) -> Result<(), AllocError> {
        push_genfs(buffer, &self.entries[number], self.symbols)
    }
}

// Appends the line of a path.
#[tactic(auto, unfolding(crate::specs::GenfsLines::genfs_line))]
fn push_genfs<N: Names>(
    buffer: &mut Vec<u8>,
    entry: &GenfsEntry<'_>,
    names: &N,
) -> Result<(), AllocError>
    ensures { OnOk result (buffer.new.items ≡ buffer.old.items ++ genfs_line (N.named names.now) entry.now) }
{
    buffer.extend_from_slice(b"genfscon ")?;
    push_place(buffer, entry.fstype(), entry.path())?;
    buffer.push(b' ')?;
    push_class(buffer, entry.class(), names)?;
    push_context(buffer, &entry.context(), names)
}

// Appends the name of a file system and a path.
#[tactic(auto, unfolding(crate::specs::GenfsLines::place_text))]
fn push_place(buffer: &mut Vec<u8>, fstype: &[u8], path: &[u8]) -> Result<(), AllocError>
    ensures { OnOk result (buffer.new.items ≡ buffer.old.items ++ place_text fstype.now path.now) }
{
    push_name_text(buffer, fstype)?;
    buffer.push(b' ')?;
    push_name_text(buffer, path)
}

// Appends the name of a class and a space, or nothing for the class 0.
#[tactic(auto, unfolding(crate::specs::GenfsLines::class_word))]
fn push_class<N: Names>(buffer: &mut Vec<u8>, class: u32, names: &N) -> Result<(), AllocError>
    ensures { OnOk result (buffer.new.items ≡ buffer.old.items ++ class_word (N.named names.now) class) }
{
    if class == 0 {
        return Ok(());
    }
    push_name(buffer, TableKind::Classes, class, names)?;
    Ok(buffer.push(b' ')?)
}
