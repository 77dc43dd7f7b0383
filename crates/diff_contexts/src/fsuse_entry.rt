// The entries of file systems.
use crate::context_entries::ComparedEntry;
use crate::key_elements::{context_alone, push_bytes};
use diff_entries::{Key, Part};
use pol_contexts::{FsUseRec, FsUseView};
use pol_symbols::Symbols;
use pol_texts::{behaviour_word, push_name_text};
use std::alloc::{AllocError, Global};

impl ComparedEntry for FsUseRec {
    ghost use Rattle.diff_contexts.specs.ContextEntries.{alone, fsuse_head, fsuse_key};

    ghost key_of = { fsuse_key };

    ghost parts_of = { λ symbols entry. alone symbols entry.context };

    ghost head_of = { fsuse_head };

    #[tactic(auto, unfolding(crate::specs::ContextEntries::fsuse_key))]
    fn key(alloc: Global, entry: &FsUseView<'_>) -> Result<Key, AllocError> {
        let mut key = Key::new(alloc);
        push_bytes(
            alloc,
            &mut key,
            behaviour_word(entry.behaviour()).as_bytes(),
        )?;
        push_bytes(alloc, &mut key, entry.name())?;
        Ok(key)
    }

    fn parts<'a>(
        alloc: Global,
        symbols: &Symbols<'a>,
        entry: &FsUseView<'_>,
    ) -> Result<Vec<Part<'a>>, AllocError> {
        context_alone(alloc, symbols, &entry.context())
    }

    #[tactic(auto, unfolding(crate::specs::ContextEntries::fsuse_head))]
    fn push_head(buffer: &mut Vec<u8>, entry: &FsUseView<'_>) -> Result<(), AllocError> {
        buffer.extend_from_slice(behaviour_word(entry.behaviour()).as_bytes())?;
        buffer.push(b' ')?;
        push_name_text(buffer, entry.name())
    }
}
