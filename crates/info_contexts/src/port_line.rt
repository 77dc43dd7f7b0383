// The lines of port contexts.
use crate::contexts::push_context;
use crate::table_lines::{LinedEntry, TableLines};
use pol_contexts::{PortRec, PortView};
use pol_cursor::Names;
use pol_fields::codes::OCON_PORT;
use pol_texts::{push_ports_text, push_protocol_name};
use std::alloc::AllocError;

/// The lines of the contexts of ports.
pub type PortLines<'p, 'a> = TableLines<'p, 'a, PortRec, OCON_PORT>;

impl LinedEntry for PortRec {
    ghost use Rattle.info_contexts.specs.PortLines.{port_line};

    ghost line = { port_line };

    #[tactic(auto, unfolding(crate::specs::PortLines::port_line))]
    fn push_line<N: Names>(
        buffer: &mut Vec<u8>,
        port: &PortView<'_>,
        names: &N,
    ) -> Result<(), AllocError> {
        buffer.extend_from_slice(b"portcon ")?;
        push_protocol_name(buffer, port.protocol())?;
        buffer.push(b' ')?;
        push_ports_text(buffer, port.low(), port.high())?;
        buffer.push(b' ')?;
        push_context(buffer, &port.context(), names)
    }
}
