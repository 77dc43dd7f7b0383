// The lines of the contexts of InfiniBand partition keys.
ghost use Rattle.std.specs.Prelude.{◌≡◌, ◌++◌, OnOk};
ghost use Rattle.info_contexts.specs.IbPkeyLines.{prefixed_text};

use crate::contexts::push_context;
use crate::table_lines::{LinedEntry, TableLines};
use pol_contexts::{IbPkeyRec, IbPkeyView};
use pol_cursor::Names;
use pol_fields::codes::OCON_IBPKEY;
use pol_texts::{push_groups_text, push_keys_text};
use std::alloc::AllocError;

/// The lines of the contexts of InfiniBand partition keys.
pub type IbPkeyLines<'p, 'a> = TableLines<'p, 'a, IbPkeyRec, OCON_IBPKEY>;

impl LinedEntry for IbPkeyRec {
    ghost use Rattle.info_contexts.specs.IbPkeyLines.{ibpkey_line};

    ghost line = { ibpkey_line };

    #[tactic(auto, unfolding(crate::specs::IbPkeyLines::ibpkey_line))]
    fn push_line<N: Names>(
        buffer: &mut Vec<u8>,
        keys: &IbPkeyView<'_>,
        names: &N,
    ) -> Result<(), AllocError> {
        buffer.extend_from_slice(b"ibpkeycon ")?;
        push_prefixed(buffer, &keys.prefix(), keys.low(), keys.high())?;
        buffer.push(b' ')?;
        push_context(buffer, &keys.context(), names)
    }
}

// Appends a prefix and the keys under it.
#[tactic(auto, unfolding(crate::specs::IbPkeyLines::prefixed_text))]
fn push_prefixed(buffer: &mut Vec<u8>, prefix: &[u8], low: u32, high: u32) -> Result<(), AllocError>
    ensures { OnOk result (buffer.new.items ≡ buffer.old.items ++ prefixed_text prefix.now low high) }
{
    push_groups_text(buffer, prefix)?;
    buffer.push(b' ')?;
    push_keys_text(buffer, low, high)
}
