// The lines of the contexts of IPv6 addresses.
ghost use Rattle.std.specs.Prelude.{◌≡◌, ◌++◌, OnOk};
ghost use Rattle.info_contexts.specs.NodeLines.{masked6_text};

use crate::contexts::push_context;
use crate::table_lines::{LinedEntry, TableLines};
use pol_contexts::{Node6Rec, Node6View};
use pol_cursor::Names;
use pol_fields::codes::OCON_NODE6;
use pol_texts::push_groups_text;
use std::alloc::AllocError;

/// The lines of the contexts of IPv6 addresses.
pub type Node6Lines<'p, 'a> = TableLines<'p, 'a, Node6Rec, OCON_NODE6>;

impl LinedEntry for Node6Rec {
    ghost use Rattle.info_contexts.specs.NodeLines.{node6_line};

    ghost line = { node6_line };

    #[tactic(auto, unfolding(crate::specs::NodeLines::node6_line))]
    fn push_line<N: Names>(
        buffer: &mut Vec<u8>,
        node: &Node6View<'_>,
        names: &N,
    ) -> Result<(), AllocError> {
        buffer.extend_from_slice(b"nodecon ")?;
        push_masked6(buffer, &node.address(), &node.mask())?;
        buffer.push(b' ')?;
        push_context(buffer, &node.context(), names)
    }
}

// Appends an address and a mask.
#[tactic(auto, unfolding(crate::specs::NodeLines::masked6_text))]
fn push_masked6(buffer: &mut Vec<u8>, address: &[u8], mask: &[u8]) -> Result<(), AllocError>
    ensures { OnOk result (buffer.new.items ≡ buffer.old.items ++ masked6_text address.now mask.now) }
{
    push_groups_text(buffer, address)?;
    buffer.push(b' ')?;
    push_groups_text(buffer, mask)
}
