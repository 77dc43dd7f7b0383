// The lines of how the files of file systems get their contexts.
use crate::contexts::push_context;
use crate::table_lines::{LinedEntry, NamedEntry, TableLines};
use pol_contexts::{FsUseRec, FsUseView};
use pol_cursor::Names;
use pol_fields::codes::OCON_FSUSE;
use pol_texts::{behaviour_word, push_name_text};
use std::alloc::AllocError;

/// The lines of how the files of file systems get their contexts.
pub type FsUseLines<'p, 'a> = TableLines<'p, 'a, FsUseRec, OCON_FSUSE>;

impl LinedEntry for FsUseRec {
    ghost use Rattle.info_contexts.specs.FsUseLines.{fsuse_line};

    ghost line = { fsuse_line };

    #[tactic(auto, unfolding(crate::specs::FsUseLines::fsuse_line))]
    fn push_line<N: Names>(
        buffer: &mut Vec<u8>,
        entry: &FsUseView<'_>,
        names: &N,
    ) -> Result<(), AllocError> {
        buffer.extend_from_slice(behaviour_word(entry.behaviour()).as_bytes())?;
        buffer.push(b' ')?;
        push_name_text(buffer, entry.name())?;
        buffer.push(b' ')?;
        push_context(buffer, &entry.context(), names)?;
        Ok(buffer.push(b';')?)
    }
}

impl NamedEntry for FsUseRec {
    ghost name = { λ entry. entry.name };

    fn name<'a>(entry: &FsUseView<'a>) -> &'a [u8] {
        entry.name()
    }
}
