// Texts that pass through a buffer as they are made.
ghost use Rattle.std.specs.Prelude.{◌++◌};
ghost use Rattle.se_items.specs.Writing.{Emits, Sends};

use crate::pieces::Pieces;
use crate::writing::{WriteEnd, page_buffer, spill, write_all};
use se_outside::Sink;
use std::alloc::Global;

/// Writes a text. No more of it than a page and a piece is kept.
#[tactic(auto, using(crate::proofs::Wrotes::nothing_sent))]
pub fn write_pieces<P: Pieces, S: Sink>(
    alloc: Global,
    pieces: &mut P,
    out: &mut S,
) -> Result<(), WriteEnd>
    requires { P.stands pieces.old }
    ensures { Sends (S.state out.old) (S.state out.new) (P.left pieces.old).text result }
{
    write_behind(page_buffer(alloc)?, pieces, out)
}

/// Writes what stands in a buffer, and then a text.
pub fn write_behind<P: Pieces, S: Sink>(
    mut buffer: Vec<u8>,
    pieces: &mut P,
    out: &mut S,
) -> Result<(), WriteEnd>
    requires { P.stands pieces.old }
    ensures { Sends (S.state out.old) (S.state out.new) (buffer.items ++ (P.left pieces.old).text) result }
{
    pass_pieces(pieces, out, &mut buffer)?;
    Ok(write_all(out, &buffer)?)
}

// Writes a text but for what the buffer keeps.
fn pass_pieces<P: Pieces, S: Sink>(
    pieces: &mut P,
    out: &mut S,
    buffer: &mut Vec<u8>,
) -> Result<(), WriteEnd>
    requires { P.stands pieces.old }
    ensures { Emits (S.state out.old) (S.state out.new) buffer.old.items buffer.new.items (P.left pieces.old).text result }
{
    'pieces: while pieces.push_piece(buffer)? {
        spill(out, buffer)?;
    }
    Ok(())
}
