//! The entries of initial SIDs.

ghost use Rattle.std.specs.Prelude.{◌≡◌, ◌∷◌, [], ◌<◌, ◌++◌, true, IfOk, OnOk, length, map};
ghost use Rattle.pol_symbols.specs.PolicySymbols.{name_in};
ghost use Rattle.info_contexts.specs.SidLines.{sid_line};
ghost use Rattle.diff_contexts.specs.ContextEntries.{sid_entries, sid_entry};

use crate::context_entries::number_among;
use crate::key_elements::context_alone;
use diff_entries::{Entries, Key, Part};
use pol_contexts::{SidList, SidView};
use pol_mls::context_text;
use pol_symbols::Symbols;
use pol_texts::push_sid_name;
use std::alloc::{AllocError, Global};
use std::marker::Model;

/// The entries of the initial SIDs of a policy, in the order of the file. Contracts see them.
#[derive(Drop)]
pub struct SidEntries<'p, 'a> {
    sids: &'p SidList<'a>,
    symbols: &'p Symbols<'a>,
}

impl<'p, 'a> Model for SidEntries<'p, 'a> {
    ghost use Rattle.std.specs.Prelude.{List};
    ghost use Rattle.diff_entries.specs.Entries.{Entry};
    ghost use Rattle.diff_contexts.specs.ContextEntries.{sid_entries};

    ghost Value = { List Entry };

    ghost view = { λ e. sid_entries e.symbols.now e.sids.now };
}

impl<'p, 'a> SidEntries<'p, 'a> {
    /// The entries of these initial SIDs, with the names of these symbols.
    pub fn new(sids: &'p SidList<'a>, symbols: &'p Symbols<'a>) -> SidEntries<'p, 'a>
        ensures { result ≡ sid_entries symbols.now sids.now }
    {
        SidEntries { sids, symbols }
    }
}

impl<'p, 'a> Entries for SidEntries<'p, 'a> {
    ghost entries = { λ entries. entries };

    #[tactic(auto, using(crate::proofs::RecordEntries::as_many))]
    fn len(&self) -> usize {
        self.sids.len() as usize
    }

    #[tactic(auto, using(crate::proofs::RecordEntries::as_many, crate::proofs::RecordEntries::key_at))]
    fn key(&self, alloc: Global, number: usize) -> Result<Key, AllocError> {
        let number = number_among(number, self.sids.len());
        sid_key(alloc, self.symbols, &self.sids.view(number))
    }

    #[tactic(auto, using(crate::proofs::RecordEntries::as_many, crate::proofs::RecordEntries::parts_at))]
    fn parts(&self, alloc: Global, number: usize) -> Result<Vec<Part<'_>>, AllocError> {
        let number = number_among(number, self.sids.len());
        sid_parts(alloc, self.symbols, &self.sids.view(number))
    }

    #[tactic(auto, using(crate::proofs::RecordEntries::as_many, crate::proofs::RecordEntries::statement_at))]
    fn push_statement(&self, number: usize, buffer: &mut Vec<u8>) -> Result<(), AllocError> {
        let number = number_among(number, self.sids.len());
        push_statement(buffer, self.symbols, &self.sids.view(number))
    }

    #[tactic(auto, using(crate::proofs::RecordEntries::as_many, crate::proofs::RecordEntries::head_at))]
    fn push_head(&self, number: usize, buffer: &mut Vec<u8>) -> Result<(), AllocError> {
        let number = number_among(number, self.sids.len());
        push_head(buffer, self.symbols, &self.sids.view(number))
    }
}

// The key of a SID: its name.
#[tactic(auto, unfolding(crate::specs::ContextEntries::sid_entry))]
fn sid_key(alloc: Global, symbols: &Symbols<'_>, sid: &SidView<'_>) -> Result<Key, AllocError>
    ensures { IfOk result (λ key. key ≡ (sid_entry symbols.now sid.now.value).key) }
{
    let mut name = Vec::new(alloc);
    push_sid_name(&mut name, sid.sid())?;
    let mut key = Key::new(alloc);
    key.push(name)?;
    Ok(key)
}

// The part of a SID: its context.
#[tactic(auto, unfolding(crate::specs::ContextEntries::sid_entry))]
fn sid_parts<'a>(
    alloc: Global,
    symbols: &Symbols<'a>,
    sid: &SidView<'_>,
) -> Result<Vec<Part<'a>>, AllocError>
    ensures { IfOk result (λ parts. parts.items ≡ (sid_entry symbols.now sid.now.value).parts) }
{
    context_alone(alloc, symbols, &sid.context())
}

// Adds the statement of a SID.
#[tactic(auto, unfolding(crate::specs::ContextEntries::sid_entry, info_contexts::specs::SidLines::sid_line))]
fn push_statement(
    buffer: &mut Vec<u8>,
    symbols: &Symbols<'_>,
    sid: &SidView<'_>,
) -> Result<(), AllocError>
    ensures { OnOk result (buffer.new.items ≡ buffer.old.items ++ (sid_entry symbols.now sid.now.value).statement) }
{
    let text = context_text(*buffer.allocator(), &sid.context(), symbols)?;
    buffer.extend_from_slice(b"sid ")?;
    push_sid_name(buffer, sid.sid())?;
    buffer.push(b' ')?;
    buffer.extend_from_slice(&text)
}

// Adds the beginning of that statement.
#[tactic(auto, unfolding(crate::specs::ContextEntries::sid_entry))]
fn push_head(
    buffer: &mut Vec<u8>,
    symbols: &Symbols<'_>,
    sid: &SidView<'_>,
) -> Result<(), AllocError>
    ensures { OnOk result (buffer.new.items ≡ buffer.old.items ++ (sid_entry symbols.now sid.now.value).head) }
{
    buffer.extend_from_slice(b"sid ")?;
    push_sid_name(buffer, sid.sid())
}
