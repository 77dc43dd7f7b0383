// Whole texts through a sink that may take less than it is given.
ghost use Rattle.std.specs.Prelude.{◌≡◌, ◌<◌, [], IfOk, OnOk, length};
ghost use Rattle.se_items.specs.Writing.{Wrote, Emits};

use se_outside::{Failed, Sink};
use std::alloc::{AllocError, Global};

// How much a buffer holds before it is spilled.
const PAGE: usize = 65_536;

/// Why a text was not written whole.
#[derive(Clone, Copy, Debug, PartialEq, Eq)]
pub enum WriteEnd {
    /// A write failed.
    Fault,
    /// Out of memory.
    Memory,
}

impl From<Failed> for WriteEnd {
    ghost use Rattle.se_items.specs.declared.writing.WriteEnd.TheVariants.{Fault};

    ghost from_gives = { λ _ e. e ≡ Fault };

    fn from(_: Failed) -> WriteEnd {
        WriteEnd::Fault
    }
}

impl From<AllocError> for WriteEnd {
    ghost use Rattle.se_items.specs.declared.writing.WriteEnd.TheVariants.{Memory};

    ghost from_gives = { λ _ e. e ≡ Memory };

    fn from(_: AllocError) -> WriteEnd {
        WriteEnd::Memory
    }
}

/// Writes the whole text.
pub fn write_all<S: Sink>(sink: &mut S, text: &[u8]) -> Result<(), Failed>
    ensures { Wrote (S.state sink.old) (S.state sink.new) text.now result }
{
    let mut at = 0;
    while at < text.len() {
        match sink.write(&text[at..]) {
            Ok(count) => at += count,
            Err(failed) => return Err(failed),
        }
    }
    Ok(())
}

/// A buffer that is spilled page by page. It has room for a page and for the item that fills it, unless that is long, so that it need not
/// grow.
pub fn page_buffer(alloc: Global) -> Result<Vec<u8>, AllocError>
    ensures { IfOk result (λ buffer. buffer.items ≡ []) }
{
    Vec::with_capacity(alloc, PAGE + PAGE / 16)
}

/// Writes what the buffer holds, where that fills a page, and empties it.
pub fn spill<S: Sink>(sink: &mut S, buffer: &mut Vec<u8>) -> Result<(), WriteEnd>
    ensures emits { Emits (S.state sink.old) (S.state sink.new) buffer.old.items buffer.new.items [] result }
    ensures small { OnOk result (length buffer.new.items < PAGE) }
{
    if buffer.len() >= PAGE {
        write_all(sink, buffer)?;
        buffer.clear();
    }
    Ok(())
}
