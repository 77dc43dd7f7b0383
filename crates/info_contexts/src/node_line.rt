// The lines of the contexts of IPv4 addresses.
use crate::contexts::push_context;
use crate::table_lines::{LinedEntry, TableLines};
use pol_contexts::{NodeRec, NodeView};
use pol_cursor::Names;
use pol_fields::codes::OCON_NODE;
use pol_texts::push_ipv4_text;
use std::alloc::AllocError;

/// The lines of the contexts of IPv4 addresses.
pub type NodeLines<'p, 'a> = TableLines<'p, 'a, NodeRec, OCON_NODE>;

impl LinedEntry for NodeRec {
    ghost use Rattle.info_contexts.specs.NodeLines.{node_line};

    ghost line = { node_line };

    #[tactic(auto, unfolding(crate::specs::NodeLines::node_line))]
    fn push_line<N: Names>(
        buffer: &mut Vec<u8>,
        node: &NodeView<'_>,
        names: &N,
    ) -> Result<(), AllocError> {
        buffer.extend_from_slice(b"nodecon ")?;
        push_ipv4_text(buffer, &node.address())?;
        buffer.push(b' ')?;
        push_ipv4_text(buffer, &node.mask())?;
        buffer.push(b' ')?;
        push_context(buffer, &node.context(), names)
    }
}
