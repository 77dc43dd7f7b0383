// The lines of initial SIDs.
ghost use Rattle.std.specs.Prelude.{◌≡◌, ◌++◌, IfOk, OnOk};
ghost use Rattle.std.specs.Str.{bytes_eq};
ghost use Rattle.pol_texts.specs.NumberNames.{sid_name};
ghost use Rattle.info_lines.specs.Inner.Listings.{HasLine, line_of};
ghost use Rattle.info_contexts.specs.SidLines.{sid_line, sid_listing};

use crate::contexts::push_context;
use crate::entry_names::EntryNames;
use info_lines::LineText;
use pol_contexts::{SidList, SidView};
use pol_cursor::Names;
use pol_symbols::Symbols;
use pol_texts::push_sid_name;
use std::alloc::{AllocError, Global};
use std::marker::Model;

/// The lines of initial SIDs, by numbers in file order. Contracts see the listing.
#[derive(Drop)]
pub struct SidLines<'p, 'a> {
    sids: &'p SidList<'a>,
    symbols: &'p Symbols<'a>,
    expand: bool,
}

impl<'p, 'a> Model for SidLines<'p, 'a> {
    ghost use Rattle.std.specs.Prelude.{ℕ, List};
    ghost use Rattle.info_contexts.specs.SidLines.{sid_listing};

    ghost Value = { List (List ℕ) };

    ghost view = { λ l. sid_listing l.expand l.symbols.now l.sids.now };
}

impl<'p, 'a> SidLines<'p, 'a> {
    /// The lines of these entries, with the names of these symbols. The contexts stand in them where they are expanded.
    pub fn new(sids: &'p SidList<'a>, symbols: &'p Symbols<'a>, expand: bool) -> SidLines<'p, 'a>
        ensures { result ≡ sid_listing expand symbols.now sids.now }
    {
        SidLines {
            sids,
            symbols,
            expand,
        }
    }
}

impl<'p, 'a> LineText for SidLines<'p, 'a> {
    ghost has = { HasLine };

    ghost text = { line_of };

    #[tactic(auto, using(info_lines::proofs::ListingLines::line_at))]
    fn push_text(&self, number: u32, buffer: &mut Vec<u8>) -> Result<(), AllocError> {
        push_sid(buffer, &self.sids.view(number), self.symbols, self.expand)
    }
}

impl<'a> EntryNames for SidList<'a> {
    ghost use Rattle.std.specs.Prelude.{map};
    ghost use Rattle.pol_texts.specs.NumberNames.{sid_name};

    ghost names = { λ sids. map (λ sid. sid_name sid.value.sid) sids };

    #[tactic(auto, using(info_lines::proofs::ListingLines::line_at))]
    fn is_named(&self, alloc: Global, number: u32, name: &[u8]) -> Result<bool, AllocError> {
        is_sid_name(alloc, self.view(number).sid(), name)
    }
}

// Whether an initial SID is printed with that name.
fn is_sid_name(alloc: Global, sid: u32, name: &[u8]) -> Result<bool, AllocError>
    ensures { IfOk result (λ same. same ≡ bytes_eq (sid_name sid) name.now) }
{
    let mut printed = Vec::new(alloc);
    push_sid_name(&mut printed, sid)?;
    Ok(printed.as_slice() == name)
}

// Appends the line of an entry, with its context where it is expanded.
#[tactic(auto, unfolding(crate::specs::SidLines::sid_line))]
fn push_sid<N: Names>(
    buffer: &mut Vec<u8>,
    sid: &SidView<'_>,
    names: &N,
    expand: bool,
) -> Result<(), AllocError>
    ensures { OnOk result (buffer.new.items ≡ buffer.old.items ++ sid_line expand (N.named names.now) sid.now.value) }
{
    if !expand {
        return push_sid_name(buffer, sid.sid());
    }
    buffer.extend_from_slice(b"sid ")?;
    push_sid_name(buffer, sid.sid())?;
    buffer.push(b' ')?;
    push_context(buffer, &sid.context(), names)
}
