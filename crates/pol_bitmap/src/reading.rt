//! How a bitmap is read.

ghost use Rattle.std.specs.Prelude.{◌≡◌, ◌≤◌, ◌+◌, ◌*◌, IfOk, OnOk, length};
ghost use Rattle.pol_cursor.specs.Outcome.{Answers};
ghost use Rattle.pol_bitmap.specs.Nodes.{nodes_in, IsRisingFrom};
ghost use Rattle.pol_bitmap.specs.Bitmap.{node_at, nodes_at};

use crate::causes::{map_cause, start_cause};
use crate::node::Node;
use pol_cursor::{Cursor, refuse};
use pol_fields::Fault;
use pol_fields::fields::{BITMAP_MAP, BITMAP_STARTBIT};

/// Reads a node that starts at or above the floor, and after which this many are left.
#[tactic(auto, unfolding(crate::specs::Bitmap::node_at))]
pub fn read_node(
    c: &mut Cursor<'_>,
    limit: Option<u32>,
    highbit: u32,
    left: u32,
    floor: u32,
) -> Result<Node, Fault>
    ensures exact { Answers (λ n. n) result (node_at limit highbit left floor) c.old c.new }
    ensures below { IfOk result (λ n. n.start + 64 ≤ highbit) }
{
    let place = c.place();
    let start = c.u32(BITMAP_STARTBIT)?;
    refuse(
        start_cause(highbit, floor, left == 0, start),
        place,
        BITMAP_STARTBIT,
    )?;
    let place = c.place();
    let map = c.u64(BITMAP_MAP)?;
    refuse(map_cause(limit, start, map), place, BITMAP_MAP)?;
    Ok(Node { start, map })
}

/// Reads the nodes and keeps none of them.
pub fn pass_nodes(
    c: &mut Cursor<'_>,
    limit: Option<u32>,
    highbit: u32,
    count: u32,
) -> Result<(), Fault>
    ensures exact { Answers (λ _. nodes_in c.old.bytes c.old.place count) result (nodes_at limit highbit count) c.old c.new }
    ensures rising { OnOk result (IsRisingFrom 0 (nodes_in c.old.bytes c.old.place count)) }
    ensures next { OnOk result (c.new.place ≡ c.old.place + 12 * count) }
    ensures long { OnOk result (c.old.place ≤ length c.old.bytes → c.old.place + 12 * count ≤ length c.old.bytes) }
{
    let mut floor = 0;
    for i in 0..count {
        let node = read_node(c, limit, highbit, count - i - 1, floor)?;
        floor = node.start + 1;
    }
    Ok(())
}
