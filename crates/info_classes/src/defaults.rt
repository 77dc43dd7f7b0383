//! The listings of default rules.

ghost use Rattle.std.specs.Prelude.{◌≡◌, ◌<◌, ◌++◌, IfOk, OnOk, length, map, option_map};
ghost use Rattle.std.specs.List.{All};
ghost use Rattle.info_classes.specs.RecordOrder.{records_at};
ghost use Rattle.info_classes.specs.DefaultLines.{default_word, end_word, range_words, choice_words, default_line, entries_in, default_listing};

use crate::default_entry::{DefaultEntry, DefaultKind, default_entries, default_of};
use info_lines::{EntryLines, EntryText, numbers_listed};
use pol_fields::TableKind;
use pol_symbols::Symbols;
use std::alloc::{AllocError, Global};
use std::marker::Model;

/// The lines of default rules, by their numbers. Contracts see all of them.
#[derive(Drop)]
pub struct DefaultLines<'a> {
    entries: Vec<DefaultEntry<'a>>,
}

impl<'a> Model for DefaultLines<'a> {
    ghost use Rattle.std.specs.Prelude.{ℕ, List, map};
    ghost use Rattle.info_classes.specs.DefaultLines.{default_line};

    ghost Value = { List (List ℕ) };

    ghost view = { λ l. map default_line l.entries.items };
}

impl<'a> DefaultLines<'a> {
    // The defaults of the classes of these numbers.
    fn new(
        alloc: Global,
        symbols: &Symbols<'a>,
        numbers: &[u32],
    ) -> Result<DefaultLines<'a>, AllocError>
        requires { All (λ n. n < length symbols.now.classes.records) numbers.now }
        ensures { IfOk result (λ lines. lines ≡ map default_line (entries_in (records_at symbols.now.classes.records numbers.now))) }
    {
        Ok(DefaultLines {
            entries: default_entries(alloc, symbols, numbers)?,
        })
    }
}

impl<'a> EntryText for DefaultLines<'a> {
    ghost lines = { λ lines. lines };

    fn len(&self) -> usize {
        self.entries.len()
    }

    #[tactic(auto, using(info_lines::proofs::ListingLines::line_at))]
    fn push_text(&self, number: usize, buffer: &mut Vec<u8>) -> Result<(), AllocError> {
        push_default(buffer, &self.entries[number])
    }
}

// Adds the line of a default rule.
#[tactic(auto, unfolding(crate::specs::DefaultLines::default_line))]
fn push_default(buffer: &mut Vec<u8>, entry: &DefaultEntry<'_>) -> Result<(), AllocError>
    ensures { OnOk result (buffer.new.items ≡ buffer.old.items ++ default_line entry.now) }
{
    buffer.extend_from_slice(default_word(entry.kind))?;
    buffer.extend_from_slice(entry.class.name())?;
    buffer.extend_from_slice(b" ")?;
    let default = default_of(&entry.class, entry.kind);
    buffer.extend_from_slice(choice_words(entry.kind, default))?;
    buffer.extend_from_slice(b";")
}

fn default_word(kind: DefaultKind) -> &'static [u8]
    ensures { result.now ≡ default_word kind }
{
    match kind {
        DefaultKind::OfUser => b"default_user ",
        DefaultKind::OfRole => b"default_role ",
        DefaultKind::OfType => b"default_type ",
        DefaultKind::OfRange => b"default_range ",
    }
}

// The words of a default of a kind.
fn choice_words(kind: DefaultKind, default: u32) -> &'static [u8]
    ensures { result.now ≡ choice_words kind default }
{
    match kind {
        DefaultKind::OfUser | DefaultKind::OfRole | DefaultKind::OfType => end_word(default),
        DefaultKind::OfRange => range_words(default),
    }
}

fn end_word(default: u32) -> &'static [u8]
    ensures { result.now ≡ end_word default }
{
    if default == 1 { b"source" } else { b"target" }
}

fn range_words(default: u32) -> &'static [u8]
    ensures { result.now ≡ range_words default }
{
    match default {
        1 => b"source low",
        2 => b"source high",
        3 => b"source low-high",
        4 => b"target low",
        5 => b"target high",
        6 => b"target low-high",
        _ => b"glblub",
    }
}

// The defaults of the classes of these numbers, one after the other.
fn lines_of_classes<'a>(
    alloc: Global,
    symbols: &Symbols<'a>,
    numbers: &[u32],
) -> Result<EntryLines<DefaultLines<'a>>, AllocError>
    requires { All (λ n. n < length symbols.now.classes.records) numbers.now }
    ensures { IfOk result (λ lines. lines ≡ map default_line (entries_in (records_at symbols.now.classes.records numbers.now))) }
{
    Ok(EntryLines::new(DefaultLines::new(alloc, symbols, numbers)?))
}

/// The default rules, in the order of the classes' names, or where a name is given, those of the class that it finds. `None`
/// exactly where it finds none.
#[tactic(auto, unfolding(crate::specs::DefaultLines::default_listing))]
pub fn default_lines<'a>(
    alloc: Global,
    symbols: &Symbols<'a>,
    name: Option<&[u8]>,
) -> Result<Option<EntryLines<DefaultLines<'a>>>, AllocError>
    ensures { IfOk result (λ lines. lines ≡ default_listing symbols.now (option_map (λ name. name.now) name.entry)) }
{
    let Some(numbers) = numbers_listed(alloc, symbols, TableKind::Classes, name)? else {
        return Ok(None);
    };
    Ok(Some(lines_of_classes(alloc, symbols, &numbers)?))
}
