// A walk found by how many come before it.
ghost use Rattle.std.specs.Prelude.{◌≡◌, ◌<◌, ◌+◌, ◌-◌, ◌^◌, IfOk, Some, length, replicate, slice_get, slice_index};
ghost use Rattle.walk_enum.specs.Walks.{walks_along};
ghost use Rattle.walk_enum.specs.Inner.Counting.{AreCounts, AreOrdered, IsWay, total};
ghost use Rattle.walk_enum.specs.Inner.Turns.{AreLayers, row_of};

use crate::counting::{count_at, walk_counts};
use crate::row::nodes_at;
use crate::table::Table;
use crate::walk::Walk;
use std::alloc::{AllocError, Global};

// By which node a walk goes, and how many walks by that node come before it.
#[derive(Clone, Copy)]
struct Way {
    node: u32,
    before: u64,
}

impl Table {
    /// The walk that so many come before, if there is one.
    pub fn walk_at(&self, alloc: Global, before: u64) -> Result<Option<Walk>, AllocError>
        requires layers { AreLayers self.now.rows.items self.now.from self.now.to self.now.step_count }
        requires ordered { AreOrdered self.now.rows.items self.now.order.items self.now.to }
        requires few { before < 2 ^ 64 - 1 }
        ensures { IfOk result (λ walk. walk ≡ slice_get (walks_along (row_of self.now.rows.items) self.now.from self.now.to self.now.step_count) before) }
    {
        let counts = walk_counts(alloc, &self.rows, &self.order, self.to)?;
        if count_at(&counts, self.from) <= before {
            return Ok(None);
        }
        let mut walk = Walk::new(alloc, self.from, self.step_count + 1)?;
        self.follow(&mut walk, &counts, before);
        Ok(Some(walk))
    }

    // Makes a walk that stays at the source the one that so many come before.
    fn follow(&self, walk: &mut Walk, counts: &[u64], before: u64)
        requires layers { AreLayers self.now.rows.items self.now.from self.now.to self.now.step_count }
        requires counts { AreCounts (row_of self.now.rows.items) self.now.to counts.now }
        requires few { before < 2 ^ 64 - 1 }
        requires there { before < length (walks_along (row_of self.now.rows.items) self.now.from self.now.to self.now.step_count) }
        requires stays { walk.old ≡ replicate (self.now.step_count + 1) self.now.from }
        ensures { slice_get (walks_along (row_of self.now.rows.items) self.now.from self.now.to self.now.step_count) before ≡ Some walk.new }
    {
        let mut left = before;
        for place in 0..self.step_count {
            let way = way_of(nodes_at(&self.rows, walk.node(place)), counts, left);
            walk.set(place + 1, way.node);
            left = way.before;
        }
    }
}

// The node of a row by which the walk goes that so many come before.
fn way_of(row: &[u32], counts: &[u64], before: u64) -> Way
    requires { before < total (slice_index counts.now) row.now }
    ensures { IsWay (slice_index counts.now) row.now before result.node result.before }
{
    let mut left = before;
    for node in row {
        let count = count_at(counts, *node);
        if left < count {
            return Way {
                node: *node,
                before: left,
            };
        }
        left -= count;
    }
    unreachable!()
}
