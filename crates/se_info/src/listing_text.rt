// A listing of seinfo, which is written as it is made.
ghost use Rattle.std.specs.Prelude.{◌≡◌, ◌<◌, ◌++◌, OnOk, length};
ghost use Rattle.se_info.specs.Inner.ListedLines.{PushesNext};
ghost use Rattle.se_info.specs.ListingText.{front_text, heading_text, indent_of, line_text, listing_text};
ghost use Rattle.se_items.specs.Writing.{Sends};

use info_lines::Lines;
use itoa::Buffer;
use se_items::{Pieces, WriteEnd, page_buffer, write_behind};
use se_outside::Sink;
use std::alloc::{AllocError, Global};

/// Writes a listing: an empty line, the title with the count of the lines, and each line after three spaces. A flat one is
/// the lines alone.
#[tactic(auto, using(se_items::proofs::Wrotes::nothing_sent))]
pub fn write_listing<L: Lines + Drop, S: Sink>(
    alloc: Global,
    title: &[u8],
    lines: L,
    flat: bool,
    out: &mut S,
) -> Result<(), WriteEnd>
    ensures { Sends (S.state out.old) (S.state out.new) (listing_text flat title.now (L.left lines)) result }
{
    let mut buffer = page_buffer(alloc)?;
    push_front(flat, title, lines.count(), &mut buffer)?;
    let mut listed = ListedLines {
        lines,
        indent: indent_of(flat),
    };
    write_behind(buffer, &mut listed, out)
}

// What stands before each line.
fn indent_of(flat: bool) -> &'static [u8]
    ensures { result.now ≡ indent_of flat }
{
    if flat { b"" } else { b"   " }
}

// Adds what stands before the lines to a buffer.
fn push_front(flat: bool, title: &[u8], count: u64, buffer: &mut Vec<u8>) -> Result<(), AllocError>
    ensures { OnOk result (buffer.new.items ≡ buffer.old.items ++ front_text flat title.now count) }
{
    if flat {
        return Ok(());
    }
    push_heading(title, count, buffer)
}

// Adds the heading of a listing to a buffer.
#[tactic(auto, unfolding(crate::specs::ListingText::heading_text))]
fn push_heading(title: &[u8], count: u64, buffer: &mut Vec<u8>) -> Result<(), AllocError>
    ensures { OnOk result (buffer.new.items ≡ buffer.old.items ++ heading_text title.now count) }
{
    let mut digits = Buffer::new();
    buffer.extend_from_slice(b"\n")?;
    buffer.extend_from_slice(title)?;
    buffer.extend_from_slice(b": ")?;
    buffer.extend_from_slice(digits.format(count).as_bytes())?;
    buffer.extend_from_slice(b"\n")
}

// The lines of a listing, as a text that is made line by line.
#[derive(Drop)]
pub struct ListedLines<L: Drop> {
    pub lines: L,
    pub indent: &'static [u8],
}

impl<L: Lines + Drop> Pieces for ListedLines<L> {
    ghost use Rattle.std.specs.Prelude.{⊤};
    ghost use Rattle.se_info.specs.Inner.ListedLines.{text_left};

    ghost left = { text_left L.left };

    ghost stands = { λ _. ⊤ };

    fn push_piece(&mut self, buffer: &mut Vec<u8>) -> Result<bool, AllocError> {
        if self.lines.count() == 0 {
            return Ok(false);
        }
        push_next(&mut self.lines, self.indent, buffer)?;
        Ok(true)
    }
}

// Adds the next line as it stands in a listing.
#[tactic(auto, unfolding(crate::specs::ListingText::line_text))]
fn push_next<L: Lines>(lines: &mut L, indent: &[u8], buffer: &mut Vec<u8>) -> Result<(), AllocError>
    requires { 0 < length (L.left lines.old) }
    ensures { OnOk result (PushesNext indent.now (L.left lines.old) (L.left lines.new)
        buffer.old.items buffer.new.items) }
{
    buffer.extend_from_slice(indent)?;
    lines.push_line(buffer)?;
    buffer.extend_from_slice(b"\n")?;
    Ok(())
}
