// The entries of InfiniBand devices at ports.
use crate::context_entries::ComparedEntry;
use crate::key_elements::{context_alone, push_bytes, push_number};
use diff_entries::{Key, Part};
use pol_contexts::{IbEndPortRec, IbEndPortView};
use pol_symbols::Symbols;
use pol_texts::{push_decimal, push_name_text};
use std::alloc::{AllocError, Global};

impl ComparedEntry for IbEndPortRec {
    ghost use Rattle.diff_contexts.specs.ContextEntries.{alone, ibendport_head, ibendport_key};

    ghost key_of = { ibendport_key };

    ghost parts_of = { λ symbols entry. alone symbols entry.context };

    ghost head_of = { ibendport_head };

    #[tactic(auto, unfolding(crate::specs::ContextEntries::ibendport_key))]
    fn key(alloc: Global, entry: &IbEndPortView<'_>) -> Result<Key, AllocError> {
        let mut key = Key::new(alloc);
        push_bytes(alloc, &mut key, entry.name())?;
        push_number(alloc, &mut key, entry.port())?;
        Ok(key)
    }

    fn parts<'a>(
        alloc: Global,
        symbols: &Symbols<'a>,
        entry: &IbEndPortView<'_>,
    ) -> Result<Vec<Part<'a>>, AllocError> {
        context_alone(alloc, symbols, &entry.context())
    }

    #[tactic(auto, unfolding(crate::specs::ContextEntries::ibendport_head))]
    fn push_head(buffer: &mut Vec<u8>, entry: &IbEndPortView<'_>) -> Result<(), AllocError> {
        buffer.extend_from_slice(b"ibendportcon ")?;
        push_name_text(buffer, entry.name())?;
        buffer.push(b' ')?;
        push_decimal(buffer, u64::from(entry.port()))
    }
}
