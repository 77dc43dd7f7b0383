// The entries of InfiniBand partition keys.
use crate::context_entries::ComparedEntry;
use crate::key_elements::{context_alone, push_bytes, push_number};
use diff_entries::{Key, Part};
use pol_contexts::{IbPkeyRec, IbPkeyView};
use pol_symbols::Symbols;
use pol_texts::{push_groups_text, push_keys_text};
use std::alloc::{AllocError, Global};

impl ComparedEntry for IbPkeyRec {
    ghost use Rattle.diff_contexts.specs.ContextEntries.{alone, ibpkey_head, ibpkey_key};

    ghost key_of = { ibpkey_key };

    ghost parts_of = { λ symbols entry. alone symbols entry.context };

    ghost head_of = { ibpkey_head };

    #[tactic(auto, unfolding(crate::specs::ContextEntries::ibpkey_key))]
    fn key(alloc: Global, entry: &IbPkeyView<'_>) -> Result<Key, AllocError> {
        let mut key = Key::new(alloc);
        push_bytes(alloc, &mut key, &entry.prefix())?;
        push_number(alloc, &mut key, entry.low())?;
        push_number(alloc, &mut key, entry.high())?;
        Ok(key)
    }

    fn parts<'a>(
        alloc: Global,
        symbols: &Symbols<'a>,
        entry: &IbPkeyView<'_>,
    ) -> Result<Vec<Part<'a>>, AllocError> {
        context_alone(alloc, symbols, &entry.context())
    }

    #[tactic(auto, unfolding(crate::specs::ContextEntries::ibpkey_head))]
    fn push_head(buffer: &mut Vec<u8>, entry: &IbPkeyView<'_>) -> Result<(), AllocError> {
        buffer.extend_from_slice(b"ibpkeycon ")?;
        push_groups_text(buffer, &entry.prefix())?;
        buffer.push(b' ')?;
        push_keys_text(buffer, entry.low(), entry.high())
    }
}
