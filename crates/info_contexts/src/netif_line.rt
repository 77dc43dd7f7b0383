// The lines of the contexts of network interfaces.
use crate::contexts::push_context;
use crate::table_lines::{LinedEntry, NamedEntry, TableLines};
use pol_contexts::{NetifRec, NetifView};
use pol_cursor::Names;
use pol_fields::codes::OCON_NETIF;
use pol_texts::push_name_text;
use std::alloc::AllocError;

/// The lines of the contexts of network interfaces.
pub type NetifLines<'p, 'a> = TableLines<'p, 'a, NetifRec, OCON_NETIF>;

impl LinedEntry for NetifRec {
    ghost use Rattle.info_contexts.specs.NetifLines.{netif_line};

    ghost line = { netif_line };

    #[tactic(auto, unfolding(crate::specs::NetifLines::netif_line))]
    fn push_line<N: Names>(
        buffer: &mut Vec<u8>,
        interface: &NetifView<'_>,
        names: &N,
    ) -> Result<(), AllocError> {
        buffer.extend_from_slice(b"netifcon ")?;
        push_name_text(buffer, interface.name())?;
        buffer.push(b' ')?;
        push_context(buffer, &interface.context(), names)?;
        buffer.push(b' ')?;
        push_context(buffer, &interface.second_context(), names)
    }
}

impl NamedEntry for NetifRec {
    ghost name = { λ entry. entry.name };

    fn name<'a>(entry: &NetifView<'a>) -> &'a [u8] {
        entry.name()
    }
}
