//! The entries of the defaults of classes.

ghost use Rattle.std.specs.Prelude.{◌≡◌, IfOk, OnOk};
ghost use Rattle.info_classes.specs.DefaultLines.{choice_words, default_of, default_word, end_word, range_words};
ghost use Rattle.diff_records.specs.DefaultEntries.{choice_of, default_entries};

use crate::records::{ComparedRecord, RecordEntries};
use diff_entries::{Key, Part};
use diff_parts::{one_part, push_named, word_part};
use info_classes::{DefaultEntry, DefaultKind};
use info_lines::primary_order;
use pol_classes::ClassView;
use pol_fields::TableKind;
use pol_read::Policy;
use pol_symbols::Symbols;
use std::alloc::{AllocError, Global};

impl<'a> ComparedRecord for DefaultEntry<'a> {
    ghost use Rattle.diff_records.specs.DefaultEntries.{default_entry};

    ghost entry = { λ symbols default. default_entry default };

    #[tactic(auto, unfolding(crate::specs::DefaultEntries::default_entry))]
    fn key(&self, alloc: Global, symbols: &Symbols<'_>) -> Result<Key, AllocError> {
        let mut key = Key::new(alloc);
        key.push(Vec::from_slice(alloc, default_word(self.kind))?)?;
        key.push(Vec::from_slice(alloc, self.class.name())?)?;
        Ok(key)
    }

    #[tactic(auto, unfolding(crate::specs::DefaultEntries::default_entry))]
    fn parts<'r>(
        &'r self,
        alloc: Global,
        symbols: &'r Symbols<'_>,
    ) -> Result<Vec<Part<'r>>, AllocError> {
        let part = word_part(alloc, choice_of(self))?;
        one_part(alloc, part)
    }

    #[tactic(auto, unfolding(crate::specs::DefaultEntries::default_entry, info_classes::specs::DefaultLines::default_line))]
    fn push_statement(
        &self,
        symbols: &Symbols<'_>,
        buffer: &mut Vec<u8>,
    ) -> Result<(), AllocError> {
        push_named(buffer, default_word(self.kind), self.class.name())?;
        push_named(buffer, b" ", choice_of(self))?;
        Ok(buffer.push(b';')?)
    }

    #[tactic(auto, unfolding(crate::specs::DefaultEntries::default_entry))]
    fn push_head(&self, symbols: &Symbols<'_>, buffer: &mut Vec<u8>) -> Result<(), AllocError> {
        push_named(buffer, default_word(self.kind), self.class.name())
    }
}

// What a default says.
fn choice_of<'r>(default: &'r DefaultEntry<'_>) -> &'r [u8]
    ensures { result.now ≡ choice_of default.now }
{
    choice_words(default.kind, default_of(&default.class, default.kind))
}

// The keyword of a kind, and the space behind it.
fn default_word(kind: DefaultKind) -> &'static [u8]
    ensures { result.now ≡ default_word kind }
{
    match kind {
        DefaultKind::OfUser => b"default_user ",
        DefaultKind::OfRole => b"default_role ",
        DefaultKind::OfType => b"default_type ",
        DefaultKind::OfRange => b"default_range ",
    }
}

// The default of a kind, and 0 where the class has none.
fn default_of(class: &ClassView<'_>, kind: DefaultKind) -> u32
    ensures { result ≡ default_of kind class.now.value }
{
    match kind {
        DefaultKind::OfUser => class.default_user(),
        DefaultKind::OfRole => class.default_role(),
        DefaultKind::OfType => class.default_type(),
        DefaultKind::OfRange => class.default_range(),
    }
}

// The words of a default of a kind.
fn choice_words(kind: DefaultKind, default: u32) -> &'static [u8]
    ensures { result.now ≡ choice_words kind default }
{
    match kind {
        DefaultKind::OfUser | DefaultKind::OfRole | DefaultKind::OfType => end_word(default),
        DefaultKind::OfRange => range_words(default),
    }
}

fn end_word(default: u32) -> &'static [u8]
    ensures { result.now ≡ end_word default }
{
    if default == 1 { b"source" } else { b"target" }
}

fn range_words(default: u32) -> &'static [u8]
    ensures { result.now ≡ range_words default }
{
    match default {
        1 => b"source low",
        2 => b"source high",
        3 => b"source low-high",
        4 => b"target low",
        5 => b"target high",
        6 => b"target low-high",
        _ => b"glblub",
    }
}

/// The entries of the defaults that classes of a policy have.
#[tactic(auto, unfolding(crate::specs::DefaultEntries::default_entries))]
pub fn default_entries<'p, 'a>(
    alloc: Global,
    policy: &'p Policy<'a>,
) -> Result<RecordEntries<'p, 'a, DefaultEntry<'a>>, AllocError>
    ensures { IfOk result (λ entries. entries ≡ default_entries policy.now) }
{
    let symbols = policy.symbols();
    let numbers = primary_order(alloc, symbols, TableKind::Classes)?;
    let defaults = info_classes::default_entries(alloc, symbols, &numbers)?;
    Ok(RecordEntries::new(symbols, defaults))
}
