// The entries of IPv4 addresses.
use crate::context_entries::ComparedEntry;
use crate::key_elements::{context_alone, push_bytes, push_number};
use diff_entries::{Key, Part};
use pol_contexts::{NodeRec, NodeView};
use pol_symbols::Symbols;
use pol_texts::push_ipv4_text;
use std::alloc::{AllocError, Global};

impl ComparedEntry for NodeRec {
    ghost use Rattle.diff_contexts.specs.ContextEntries.{alone, node_head, node_key};

    ghost key_of = { node_key };

    ghost parts_of = { λ symbols entry. alone symbols entry.context };

    ghost head_of = { node_head };

    #[tactic(auto, unfolding(crate::specs::ContextEntries::node_key))]
    fn key(alloc: Global, entry: &NodeView<'_>) -> Result<Key, AllocError> {
        let mut key = Key::new(alloc);
        push_number(alloc, &mut key, 4)?;
        push_bytes(alloc, &mut key, &entry.address())?;
        push_bytes(alloc, &mut key, &entry.mask())?;
        Ok(key)
    }

    fn parts<'a>(
        alloc: Global,
        symbols: &Symbols<'a>,
        entry: &NodeView<'_>,
    ) -> Result<Vec<Part<'a>>, AllocError> {
        context_alone(alloc, symbols, &entry.context())
    }

    #[tactic(auto, unfolding(crate::specs::ContextEntries::node_head))]
    fn push_head(buffer: &mut Vec<u8>, entry: &NodeView<'_>) -> Result<(), AllocError> {
        buffer.extend_from_slice(b"nodecon ")?;
        push_ipv4_text(buffer, &entry.address())?;
        buffer.push(b' ')?;
        push_ipv4_text(buffer, &entry.mask())
    }
}
