// Walks read from a table of successors.
ghost use Rattle.std.specs.Prelude.{◌≡◌, ◌≤◌, ◌<◌, ◌+◌, ◌-◌, ◌++◌, ℕ, Contains, IfOk, IfSome, IfNone, length, slice_index, slice_get, take};
ghost use Rattle.walk_enum.specs.Walks.{walks_along};
ghost use Rattle.walk_enum.specs.Moving.{Moves};
ghost use Rattle.walk_enum.specs.Inner.Turns.{row_of, AreLayers, IsTurn, IsLast, Leads, first_along};

use crate::after::node_after;
use crate::row::{Row, nodes_at};
use crate::walk::Walk;
use std::alloc::{AllocError, Global};

/// The nodes on shortest walks, each with its successors on them, and the two ends.
#[derive(Drop)]
pub struct Table {
    pub rows: Vec<Row>,
    // nodes, each before its successors
    pub order: Vec<u32>,
    pub from: u32,
    pub to: u32,
    pub step_count: u32,
}

// Where a walk can take another node.
#[derive(Clone, Copy)]
struct Turn {
    place: u32,
    node: u32,
}

impl Table {
    /// The first walk.
    pub fn first(&self, alloc: Global) -> Result<Walk, AllocError>
        requires { AreLayers self.now.rows.items self.now.from self.now.to self.now.step_count }
        ensures { IfOk result (λ w. slice_get (walks_along (row_of self.now.rows.items) self.now.from self.now.to self.now.step_count) 0 ≡ Some w) }
    {
        let mut walk = Walk::new(alloc, self.from, self.step_count + 1)?;
        self.descend(&mut walk, 0);
        Ok(walk)
    }

    /// Makes a walk the next one.
    pub fn move_on(&self, walk: &mut Walk) -> bool
        requires layers { AreLayers self.now.rows.items self.now.from self.now.to self.now.step_count }
        requires there { Contains (walks_along (row_of self.now.rows.items) self.now.from self.now.to self.now.step_count) walk.old }
        ensures { Moves (walks_along (row_of self.now.rows.items) self.now.from self.now.to self.now.step_count) walk.old walk.new result }
    {
        match self.turn_of(walk) {
            Some(turn) => {
                walk.set(turn.place, turn.node);
                self.descend(walk, turn.place);
                true
            }
            None => false,
        }
    }

    // The last place where a walk can take a later node, with that node.
    fn turn_of(&self, walk: &Walk) -> Option<Turn>
        requires layers { AreLayers self.now.rows.items self.now.from self.now.to self.now.step_count }
        requires there { Contains (walks_along (row_of self.now.rows.items) self.now.from self.now.to self.now.step_count) walk.now }
        ensures some { IfSome result (λ t. IsTurn (row_of self.now.rows.items) self.now.to self.now.step_count walk.now t.place t.node) }
        ensures none { IfNone result (IsLast (walks_along (row_of self.now.rows.items) self.now.from self.now.to self.now.step_count) walk.now) }
    {
        for back in 0..self.step_count {
            let place = self.step_count - back;
            let row = nodes_at(&self.rows, walk.node(place - 1));
            match node_after(row, walk.node(place)) {
                Some(node) => return Some(Turn { place, node }),
                None => {}
            }
        }
        None
    }

    // From a place on, takes the first successor at each step.
    fn descend(&self, walk: &mut Walk, from: u32)
        requires within { from ≤ self.now.step_count }
        requires length { length walk.old ≡ self.now.step_count + 1 }
        requires leads { Leads (row_of self.now.rows.items) self.now.to (slice_index walk.old from) (self.now.step_count - from) }
        ensures { walk.new ≡ take from walk.old ++ first_along (row_of self.now.rows.items) (slice_index walk.old from) (self.now.step_count - from) }
    {
        for place in from..self.step_count {
            let next = nodes_at(&self.rows, walk.node(place))[0];
            walk.set(place + 1, next);
        }
    }
}
