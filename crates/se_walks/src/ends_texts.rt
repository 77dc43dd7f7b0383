// The text of an edge, and of the two ends of an edge or a walk.
ghost use Rattle.std.specs.Prelude.{◌≡◌, ◌++◌, OnOk};
ghost use Rattle.se_walks.specs.WalkTexts.{edge_text, ends_text};

use crate::EdgeTexts;
use pol_cursor::push_name;
use pol_fields::TableKind;
use pol_symbols::Symbols;
use std::alloc::AllocError;

/// Adds `A -> B` and what stands behind it to a buffer.
#[tactic(auto, unfolding(crate::specs::WalkTexts::edge_text))]
pub fn push_edge<T: EdgeTexts>(
    texts: &T,
    indent: &[u8],
    from: u32,
    to: u32,
    buffer: &mut Vec<u8>,
) -> Result<(), AllocError>
    ensures { OnOk result (buffer.new.items ≡ buffer.old.items ++ edge_text (T.words texts.now) indent.now from to) }
{
    push_ends(texts.symbols(), from, to, buffer)?;
    texts.push_behind(indent, from, to, buffer)
}

/// Adds `A -> B` to a buffer, with the names of two types.
#[tactic(auto, unfolding(crate::specs::WalkTexts::ends_text))]
pub fn push_ends(
    symbols: &Symbols<'_>,
    from: u32,
    to: u32,
    buffer: &mut Vec<u8>,
) -> Result<(), AllocError>
    ensures { OnOk result (buffer.new.items ≡ buffer.old.items ++ ends_text symbols.now from to) }
{
    push_name(buffer, TableKind::Types, from, symbols)?;
    buffer.extend_from_slice(b" -> ")?;
    push_name(buffer, TableKind::Types, to, symbols)
}
