// All shortest walks, one after the other.
ghost use Rattle.std.specs.Prelude.{◌≡◌, ◌<◌, ◌+◌, ◌-◌, ◌^◌, All, Contains, IfOk, length, slice_get, Some};
ghost use Rattle.walk_enum.specs.Walks.{walks_along};
ghost use Rattle.walk_enum.specs.Moving.{Moves};
ghost use Rattle.walk_enum.specs.Inner.Counting.{AreOrdered};
ghost use Rattle.walk_enum.specs.Inner.Turns.{row_of, AreLayers};

use crate::table::Table;
use crate::walk::Walk;
use std::alloc::{AllocError, Global};
use std::marker::Model;

/// The shortest walks from a node to a node, of which there is at least one. Contracts see the list of them, in
/// lexicographic order.
///
/// There is a row for every node of the graph. That of a node on such a walk has its successors on such walks, and the
/// others are empty.
#[derive(Drop)]
pub struct Layers {
    table: Table,
}

impl Model for Layers {
    ghost use Rattle.std.specs.Prelude.{ℕ, List};
    ghost use Rattle.walk_enum.specs.Walks.{walks_along};
    ghost use Rattle.walk_enum.specs.Inner.Counting.{AreOrdered};
    ghost use Rattle.walk_enum.specs.Inner.Counting.{AreOrdered};
    ghost use Rattle.walk_enum.specs.Inner.Turns.{row_of, AreLayers};

    ghost Value = { List (List ℕ) };

    ghost view = { λ l. walks_along (row_of l.table.rows.items) l.table.from l.table.to l.table.step_count };

    ghost invariant = { λ l. AreLayers l.table.rows.items l.table.from l.table.to l.table.step_count × AreOrdered l.table.rows.items l.table.order.items l.table.to };
}

impl Layers {
    pub(crate) fn new(table: Table) -> Layers
        requires layers { AreLayers table.rows.items table.from table.to table.step_count }
        requires ordered { AreOrdered table.rows.items table.order.items table.to }
        ensures { result ≡ walks_along (row_of table.rows.items) table.from table.to table.step_count }
    {
        Layers { table }
    }

    /// The number of steps of each walk.
    pub fn length(&self) -> u32
        ensures some { 0 < length self.now }
        ensures each { All (λ walk. length walk ≡ result + 1) self.now }
    {
        self.table.step_count
    }

    /// The first walk. This needs memory for its nodes.
    pub fn first_walk(&self, alloc: Global) -> Result<Walk, AllocError>
        ensures { IfOk result (λ walk. slice_get self.now 0 ≡ Some walk) }
    {
        self.table.first(alloc)
    }

    /// The walk that so many come before, or `None` where there are not so many. It is found by how many walks lead from each node to the
    /// target, and not by passing over those before it: the time is linear in the successors of all nodes on walks. This needs memory for a
    /// number a node, which is given back, and for the walk's nodes.
    pub fn walk_at(&self, alloc: Global, before: u64) -> Result<Option<Walk>, AllocError>
        requires { before < 2 ^ 64 - 1 }
        ensures { IfOk result (λ walk. walk ≡ slice_get self.now before) }
    {
        self.table.walk_at(alloc, before)
    }

    /// Makes one of the walks the next one, and tells whether there was one. If not, the walk stays as it is. This
    /// needs no memory.
    pub fn next_walk(&self, walk: &mut Walk) -> bool
        requires { Contains self.now walk.old }
        ensures { Moves self.now walk.old walk.new result }
    {
        self.table.move_on(walk)
    }
}
