// The entries of IPv6 addresses.
use crate::context_entries::ComparedEntry;
use crate::key_elements::{context_alone, push_bytes, push_number};
use diff_entries::{Key, Part};
use pol_contexts::{Node6Rec, Node6View};
use pol_symbols::Symbols;
use pol_texts::push_groups_text;
use std::alloc::{AllocError, Global};

impl ComparedEntry for Node6Rec {
    ghost use Rattle.diff_contexts.specs.ContextEntries.{alone, node6_head, node6_key};

    ghost key_of = { node6_key };

    ghost parts_of = { λ symbols entry. alone symbols entry.context };

    ghost head_of = { node6_head };

    #[tactic(auto, unfolding(crate::specs::ContextEntries::node6_key))]
    fn key(alloc: Global, entry: &Node6View<'_>) -> Result<Key, AllocError> {
        let mut key = Key::new(alloc);
        push_number(alloc, &mut key, 16)?;
        push_bytes(alloc, &mut key, &entry.address())?;
        push_bytes(alloc, &mut key, &entry.mask())?;
        Ok(key)
    }

    fn parts<'a>(
        alloc: Global,
        symbols: &Symbols<'a>,
        entry: &Node6View<'_>,
    ) -> Result<Vec<Part<'a>>, AllocError> {
        context_alone(alloc, symbols, &entry.context())
    }

    #[tactic(auto, unfolding(crate::specs::ContextEntries::node6_head))]
    fn push_head(buffer: &mut Vec<u8>, entry: &Node6View<'_>) -> Result<(), AllocError> {
        buffer.extend_from_slice(b"nodecon ")?;
        push_groups_text(buffer, &entry.address())?;
        buffer.push(b' ')?;
        push_groups_text(buffer, &entry.mask())
    }
}
