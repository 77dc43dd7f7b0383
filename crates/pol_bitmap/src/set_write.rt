//! How a set is written as a bitmap.

ghost use Rattle.std.specs.Prelude.{◌≡◌};
ghost use Rattle.pol_cursor.specs.Writing.{Writes};
ghost use Rattle.pol_bitmap.specs.Bitmap.{high_of, spell_bitmap};

use crate::node::Node;
use crate::set::Set;
use pol_cursor::{Part, Written};
use std::alloc::AllocError;

/// Appends a set as a bitmap of the format: the map's width of 64 bits, the highbit, the number of nodes, and the nodes. Out of
/// memory, a beginning of the bitmap was appended.
///
/// The highbit fits its field where no bit is above 4,294,967,231. It is for one bitmap; a tree writes its own as parts of records.
pub fn write_bitmap(set: &Set, out: &mut Vec<u8>) -> Result<(), AllocError>
    ensures { Writes out.old.items out.new.items (spell_bitmap set.now) result }
{
    set.write(out)
}

impl Written for Set {
    ghost use Rattle.pol_bitmap.specs.Bitmap.{spell_bitmap};

    ghost spelling = { spell_bitmap };

    fn write(&self, out: &mut Vec<u8>) -> Result<(), AllocError> {
        let nodes = self.nodes();
        let count = Part::U32(nodes.len() as u64);
        (Part::U32(64), Part::U32(highbit_of(nodes)), count, nodes).write(out)
    }
}

impl Written for Node {
    ghost use Rattle.pol_bitmap.specs.Bitmap.{spell_node};

    ghost spelling = { spell_node };

    fn write(&self, out: &mut Vec<u8>) -> Result<(), AllocError> {
        (Part::U32(self.start as u64), Part::U64(self.map)).write(out)
    }
}

/// The bit after the last node.
fn highbit_of(nodes: &[Node]) -> u64
    ensures { result ≡ high_of nodes.now }
{
    match nodes.last() {
        None => 0,
        Some(last) => last.start as u64 + 64,
    }
}
