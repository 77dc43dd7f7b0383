//! The entries of the paths of file systems without labels.

ghost use Rattle.std.specs.Prelude.{◌≡◌, ◌++◌, codes, IfOk, OnOk};
ghost use Rattle.pol_symbols.specs.PolicySymbols.{name_in};
ghost use Rattle.pol_mls.specs.ContextText.{context_text};
ghost use Rattle.info_contexts.specs.GenfsLines.{class_word, genfs_line, place_text};
ghost use Rattle.diff_records.specs.GenfsEntries.{class_behind, class_name, genfs_entries};

use crate::records::{ComparedRecord, RecordEntries};
use diff_entries::{Key, Label, Part};
use diff_parts::{context_part, name_or_none, one_part};
use info_contexts::GenfsEntry;
use pol_cursor::push_name;
use pol_fields::TableKind;
use pol_mls::context_text;
use pol_read::Policy;
use pol_symbols::Symbols;
use pol_texts::push_name_text;
use std::alloc::{AllocError, Global};

impl<'a> ComparedRecord for GenfsEntry<'a> {
    ghost use Rattle.diff_records.specs.GenfsEntries.{genfs_entry};

    ghost entry = { genfs_entry };

    #[tactic(auto, unfolding(crate::specs::GenfsEntries::genfs_entry))]
    fn key(&self, alloc: Global, symbols: &Symbols<'_>) -> Result<Key, AllocError> {
        let mut key = Key::new(alloc);
        key.push(Vec::from_slice(alloc, self.fstype())?)?;
        key.push(Vec::from_slice(alloc, self.path())?)?;
        key.push(Vec::from_slice(alloc, class_name(symbols, self.class()))?)?;
        Ok(key)
    }

    #[tactic(auto, unfolding(crate::specs::GenfsEntries::genfs_entry))]
    fn parts<'r>(
        &'r self,
        alloc: Global,
        symbols: &'r Symbols<'_>,
    ) -> Result<Vec<Part<'r>>, AllocError> {
        let part = context_part(alloc, symbols, Label::Unnamed, &self.context())?;
        one_part(alloc, part)
    }

    #[tactic(auto, unfolding(crate::specs::GenfsEntries::genfs_entry))]
    fn push_statement(
        &self,
        symbols: &Symbols<'_>,
        buffer: &mut Vec<u8>,
    ) -> Result<(), AllocError> {
        push_genfs(buffer, symbols, self)
    }

    #[tactic(auto, unfolding(crate::specs::GenfsEntries::genfs_entry))]
    fn push_head(&self, symbols: &Symbols<'_>, buffer: &mut Vec<u8>) -> Result<(), AllocError> {
        buffer.extend_from_slice(b"genfscon ")?;
        push_place(buffer, self)?;
        push_class_behind(buffer, symbols, self.class())
    }
}

// The name of a class, or nothing for the class 0.
fn class_name<'a>(symbols: &Symbols<'a>, class: u32) -> &'a [u8]
    ensures { result.now ≡ class_name symbols.now class }
{
    if class == 0 {
        b""
    } else {
        name_or_none(symbols, TableKind::Classes, class)
    }
}

// Adds the statement of a path.
#[tactic(auto, unfolding(info_contexts::specs::GenfsLines::genfs_line))]
fn push_genfs(
    buffer: &mut Vec<u8>,
    symbols: &Symbols<'_>,
    place: &GenfsEntry<'_>,
) -> Result<(), AllocError>
    ensures { OnOk result (buffer.new.items ≡ buffer.old.items ++ genfs_line (name_in symbols.now) place.now) }
{
    let context = written_context(*buffer.allocator(), symbols, place)?;
    push_front(buffer, symbols, place)?;
    buffer.extend_from_slice(&context)
}

// The text of the context of a path.
fn written_context(
    alloc: Global,
    symbols: &Symbols<'_>,
    place: &GenfsEntry<'_>,
) -> Result<Vec<u8>, AllocError>
    ensures { IfOk result (λ text. text.items ≡ context_text (name_in symbols.now) place.now.path.context) }
{
    context_text(alloc, &place.context(), symbols)
}

// Adds what stands before the context.
fn push_front(
    buffer: &mut Vec<u8>,
    symbols: &Symbols<'_>,
    place: &GenfsEntry<'_>,
) -> Result<(), AllocError>
    ensures { OnOk result (buffer.new.items ≡ buffer.old.items ++ codes "genfscon " ++ place_text place.now.fstype place.now.path.path ++ codes " " ++ class_word (name_in symbols.now) place.now.path.class) }
{
    buffer.extend_from_slice(b"genfscon ")?;
    push_place(buffer, place)?;
    buffer.push(b' ')?;
    push_class_word(buffer, symbols, place.class())
}

// Adds the name of a file system and a path.
#[tactic(auto, unfolding(info_contexts::specs::GenfsLines::place_text))]
fn push_place(buffer: &mut Vec<u8>, place: &GenfsEntry<'_>) -> Result<(), AllocError>
    ensures { OnOk result (buffer.new.items ≡ buffer.old.items ++ place_text place.now.fstype place.now.path.path) }
{
    push_name_text(buffer, place.fstype())?;
    buffer.push(b' ')?;
    push_name_text(buffer, place.path())
}

// Adds the name of a class and a space, or nothing for the class 0.
#[tactic(auto, unfolding(info_contexts::specs::GenfsLines::class_word))]
fn push_class_word(
    buffer: &mut Vec<u8>,
    symbols: &Symbols<'_>,
    class: u32,
) -> Result<(), AllocError>
    ensures { OnOk result (buffer.new.items ≡ buffer.old.items ++ class_word (name_in symbols.now) class) }
{
    if class == 0 {
        return Ok(());
    }
    push_name(buffer, TableKind::Classes, class, symbols)?;
    Ok(buffer.push(b' ')?)
}

// Adds a space and the name of a class, or nothing for the class 0.
fn push_class_behind(
    buffer: &mut Vec<u8>,
    symbols: &Symbols<'_>,
    class: u32,
) -> Result<(), AllocError>
    ensures { OnOk result (buffer.new.items ≡ buffer.old.items ++ class_behind symbols.now class) }
{
    if class == 0 {
        return Ok(());
    }
    buffer.push(b' ')?;
    buffer.extend_from_slice(name_or_none(symbols, TableKind::Classes, class))
}

/// The entries of the paths of file systems without labels, in file order.
#[tactic(auto, unfolding(crate::specs::GenfsEntries::genfs_entries), using(crate::proofs::GenfsPlaces::all_places))]
pub fn genfs_entries<'p, 'a>(
    alloc: Global,
    policy: &'p Policy<'a>,
) -> Result<RecordEntries<'p, 'a, GenfsEntry<'a>>, AllocError>
    ensures { IfOk result (λ entries. entries ≡ genfs_entries policy.now) }
{
    let places = info_contexts::genfs_entries(alloc, policy.genfs(), None)?;
    Ok(RecordEntries::new(policy.symbols(), places))
}
