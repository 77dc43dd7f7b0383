// The entries of network interfaces.
use crate::context_entries::ComparedEntry;
use diff_entries::{Key, Label, Part};
use diff_parts::{context_part, one_part};
use pol_contexts::{NetifRec, NetifView};
use pol_symbols::Symbols;
use pol_texts::push_name_text;
use std::alloc::{AllocError, Global};

impl ComparedEntry for NetifRec {
    ghost use Rattle.diff_contexts.specs.ContextEntries.{netif_head, netif_key, netif_parts};

    ghost key_of = { netif_key };

    ghost parts_of = { netif_parts };

    ghost head_of = { netif_head };

    fn key(alloc: Global, interface: &NetifView<'_>) -> Result<Key, AllocError> {
        Key::of_name(alloc, interface.name())
    }

    fn parts<'a>(
        alloc: Global,
        symbols: &Symbols<'a>,
        interface: &NetifView<'_>,
    ) -> Result<Vec<Part<'a>>, AllocError> {
        let context = context_part(alloc, symbols, Label::Context, &interface.context())?;
        let packet = context_part(alloc, symbols, Label::Packet, &interface.second_context())?;
        let mut parts = one_part(alloc, context)?;
        parts.push(packet)?;
        Ok(parts)
    }

    fn push_head(buffer: &mut Vec<u8>, interface: &NetifView<'_>) -> Result<(), AllocError> {
        buffer.extend_from_slice(b"netifcon ")?;
        push_name_text(buffer, interface.name())
    }
}
