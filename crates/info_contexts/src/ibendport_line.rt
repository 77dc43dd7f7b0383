// The lines of the contexts of InfiniBand devices at ports.
ghost use Rattle.std.specs.Prelude.{◌≡◌, ◌++◌, OnOk};
ghost use Rattle.info_contexts.specs.IbEndPortLines.{device_text};

use crate::contexts::push_context;
use crate::table_lines::{LinedEntry, TableLines};
use pol_contexts::{IbEndPortRec, IbEndPortView};
use pol_cursor::Names;
use pol_fields::codes::OCON_IBENDPORT;
use pol_texts::{push_decimal, push_name_text};
use std::alloc::AllocError;

/// The lines of the contexts of InfiniBand devices at their ports.
pub type IbEndPortLines<'p, 'a> = TableLines<'p, 'a, IbEndPortRec, OCON_IBENDPORT>;

impl LinedEntry for IbEndPortRec {
    ghost use Rattle.info_contexts.specs.IbEndPortLines.{ibendport_line};

    ghost line = { ibendport_line };

    #[tactic(auto, unfolding(crate::specs::IbEndPortLines::ibendport_line))]
    fn push_line<N: Names>(
        buffer: &mut Vec<u8>,
        port: &IbEndPortView<'_>,
        names: &N,
    ) -> Result<(), AllocError> {
        push_device(buffer, port.name(), port.port())?;
        buffer.push(b' ')?;
        push_context(buffer, &port.context(), names)
    }
}

// Appends the word, the name of a device and the number of its port.
#[tactic(auto, unfolding(crate::specs::IbEndPortLines::device_text))]
fn push_device(buffer: &mut Vec<u8>, name: &[u8], port: u32) -> Result<(), AllocError>
    ensures { OnOk result (buffer.new.items ≡ buffer.old.items ++ device_text name.now port) }
{
    buffer.extend_from_slice(b"ibendportcon ")?;
    push_name_text(buffer, name)?;
    buffer.push(b' ')?;
    push_decimal(buffer, u64::from(port))
}
