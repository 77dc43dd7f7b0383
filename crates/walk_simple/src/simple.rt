// All simple walks, one after the other.
ghost use Rattle.std.specs.Prelude.{◌≡◌, ◌≤◌, ◌+◌, ◌↔◌, Contains, IfOk, IfSome, None, [], slice_get, Some};
ghost use Rattle.walk_enum.specs.Moving.{Moves};
ghost use Rattle.walk_simple.specs.SimpleWalks.{simple_walks};

use crate::distances::distances;
use crate::path::Path;
use crate::search::rows_within;
use crate::table::Table;
use crate::walk::SimpleWalk;
use std::alloc::{AllocError, Global};
use std::marker::Model;
use std::mem::swap;
use std::sync::ledger::Ledger;
use walk_enum::{Graph, Steps};

/// The walks from a node to a node that have no node twice and at most a number of steps. Contracts see the list of them,
/// in lexicographic order, and that number.
///
/// There is a row for every node of the graph. That of a node which is reached in time has its successors, 4 bytes each.
#[derive(Drop)]
pub struct Simple {
    table: Table,
    from: u32,
    most: u32,
}

impl Model for Simple {
    ghost use Rattle.std.specs.Prelude.{◌≤◌, []};
    ghost use Rattle.walk_enum.specs.Inner.Turns.{row_of};
    ghost use Rattle.walk_simple.specs.SimpleWalks.{simple_along};
    ghost use Rattle.walk_simple.specs.Rooms.{AllWalks};
    ghost use Rattle.walk_simple.specs.Inner.Tables.{IsTable};

    ghost Value = { AllWalks };

    ghost view = { λ s. record { walks = simple_along (row_of s.table.rows.items) [] s.from s.table.to s.most; most = s.most } };

    ghost invariant = { λ s. IsTable s.table.rows.items s.table.far.items s.table.to × (s.most ≤ 99) };
}

impl Simple {
    /// The walks from a node to a node of at most so many steps.
    ///
    /// Each node that is reached in fewer steps is asked for its successors once, and they are kept. The time is linear in
    /// their edges times the number of steps.
    pub fn new<G: Graph, L: Ledger>(
        alloc: Global,
        graph: &G,
        from: u32,
        to: u32,
        most: u32,
        steps: &mut Steps<L>,
    ) -> Result<Simple, AllocError>
        requires from_low { 1 ≤ from }
        requires from_high { from ≤ G.nodes graph.now }
        requires to_low { 1 ≤ to }
        requires to_high { to ≤ G.nodes graph.now }
        requires most_low { 1 ≤ most }
        requires most_high { most ≤ 99 }
        ensures walks { IfOk result (λ s. s.walks ≡ simple_walks (G.edge graph.now) (G.nodes graph.now) from to most) }
        ensures most { IfOk result (λ s. s.most ≡ most) }
        ensures cost { steps.new ≤ steps.old + G.nodes graph.now }
    {
        let rows = rows_within(alloc, graph, from, most, steps)?;
        let far = distances(alloc, &rows, to, most)?;
        Ok(Simple {
            table: Table { rows, far, to },
            from,
            most,
        })
    }

    /// The first walk, or `None` where there is no walk. This makes the room for the nodes of all walks.
    pub fn first_walk(&self, alloc: Global) -> Result<Option<SimpleWalk>, AllocError>
        ensures none { IfOk result (λ found. (found ≡ None) ↔ (self.now.walks ≡ [])) }
        ensures some { IfOk result (λ found. IfSome found (λ walk. slice_get self.now.walks 0 ≡ Some walk.nodes)) }
        ensures room { IfOk result (λ found. IfSome found (λ walk. walk.room ≡ self.now.most + 1)) }
    {
        let room = self.most + 1;
        let mut path = Path::new(alloc, self.from, room)?;
        if !self.table.descend(&mut path, self.most) {
            return Ok(None);
        }
        let other = Path::new(alloc, self.from, room)?;
        Ok(Some(SimpleWalk { path, other }))
    }

    /// Makes one of the walks the next one, and tells whether there was one. If not, the walk stays as it is. This needs
    /// no memory, and the room stays.
    ///
    /// A node is entered only where the target is near enough to be reached from it in the steps that are left. How long
    /// this takes is left open all the same: where each way from there to the target meets a node that the walk already
    /// has, that part of the graph is gone through before it is given up. At worst the source has one successor, which
    /// leads to the target and into such a part: where each node of it has three successors in it, the time after the
    /// first walk grows threefold with each step more.
    pub fn next_walk(&self, walk: &mut SimpleWalk) -> bool
        requires there { Contains self.now.walks walk.old.nodes }
        requires room { self.now.most + 1 ≤ walk.old.room }
        ensures moves { Moves self.now.walks walk.old.nodes walk.new.nodes result }
        ensures room { walk.new.room ≡ walk.old.room }
    {
        walk.other.copy(&walk.path);
        if !self.table.advance(&mut walk.other, 0, self.most) {
            return false;
        }
        swap(&mut walk.path, &mut walk.other);
        true
    }
}
