//! The text of a constraint with what its sets of names have become.

ghost use Rattle.std.specs.Prelude.{◌≡◌, ◌++◌, false, IfOk, OnOk, get_or, map};
ghost use Rattle.diff_constraints.specs.ConstraintDifferences.{filled, set_piece, set_pieces};

use diff_entries::{NameSet, Text, push_set_change};
use info_lines::push_set;
use std::alloc::{AllocError, Global};

/// What the sets of a constraint have become, one by one.
pub(crate) fn set_pieces(
    alloc: Global,
    old: &[NameSet<'_>],
    new: &[NameSet<'_>],
) -> Result<Vec<Text>, AllocError>
    ensures { IfOk result (λ pieces. pieces.items ≡ set_pieces old.now new.now) }
{
    let mut pieces = Vec::new(alloc);
    for i in 0..old.len().min(new.len()) {
        pieces.push(set_piece(alloc, &old[i], &new[i])?)?;
    }
    Ok(pieces)
}

// A set as it stands in both policies, or else what it has become.
fn set_piece(alloc: Global, old: &NameSet<'_>, new: &NameSet<'_>) -> Result<Text, AllocError>
    ensures { IfOk result (λ piece. piece ≡ set_piece old.now new.now) }
{
    let mut piece = Vec::new(alloc);
    if old.is_same(new) {
        push_set(&mut piece, old.names())?;
    } else {
        push_set_change(&mut piece, old, new)?;
    }
    Ok(Text::new(piece))
}

/// Adds a text whose sets are { }, with one of these pieces in place of each, in turn.
pub(crate) fn push_filled(
    buffer: &mut Vec<u8>,
    text: &[u8],
    pieces: &[Text],
) -> Result<(), AllocError>
    ensures { OnOk result (buffer.new.items ≡ buffer.old.items ++ filled false pieces.now text.now) }
{
    let mut within = false;
    let mut next = 0;
    for byte in text {
        if within {
            within = *byte != b'}';
        } else if *byte == b'{' && next < pieces.len() {
            buffer.extend_from_slice(pieces[next].bytes())?;
            next += 1;
            within = true;
        } else {
            buffer.push(*byte)?;
        }
    }
    Ok(())
}
