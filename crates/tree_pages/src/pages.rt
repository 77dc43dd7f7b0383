// One part, counted or sent.
ghost use Rattle.std.specs.Prelude.{◌≡◌, ◌+◌, ◌-◌, ◌^◌, [], IfOk, length, min};
ghost use Rattle.se_items.specs.Writing.{Emits};

use pol_cursor::Written;
use se_items::{WriteEnd, write_all};
use se_outside::Sink;
use std::alloc::AllocError;

// How much a buffer holds before it is written.
const PAGE: usize = 65_536;

/// A number and how many bytes a part has, up to the greatest number. The part is made in the buffer.
pub fn count_part<W: Written>(start: u64, part: &W, buffer: &mut Vec<u8>) -> Result<u64, AllocError>
    ensures { IfOk result (λ total. total ≡ min (start + length (W.spelling part.now)) (2 ^ 64 - 1)) }
{
    buffer.clear();
    part.write(buffer)?;
    Ok(start.saturating_add(buffer.len() as u64))
}

/// Adds the bytes of a part to the buffer, which is written and emptied where it holds a page.
pub fn send_part<W: Written, S: Sink>(
    part: &W,
    buffer: &mut Vec<u8>,
    out: &mut S,
) -> Result<(), WriteEnd>
    ensures { Emits (S.state out.old) (S.state out.new) buffer.old.items buffer.new.items (W.spelling part.now) result }
{
    part.write(buffer)?;
    write_page(buffer, out)
}

// Writes the buffer and empties it, where it holds a page.
fn write_page<S: Sink>(buffer: &mut Vec<u8>, out: &mut S) -> Result<(), WriteEnd>
    ensures { Emits (S.state out.old) (S.state out.new) buffer.old.items buffer.new.items [] result }
{
    if buffer.len() >= PAGE {
        write_all(out, buffer)?;
        buffer.clear();
    }
    Ok(())
}
