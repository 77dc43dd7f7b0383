// Walks read from a table of successors.
ghost use Rattle.std.specs.Prelude.{◌≡◌, ◌≤◌, ◌<◌, ◌+◌, ◌∷◌, [], Contains, drop, length};
ghost use Rattle.walk_enum.specs.Inner.Turns.{row_of};
ghost use Rattle.walk_simple.specs.SimpleWalks.{simple_along};
ghost use Rattle.walk_simple.specs.Inner.Tables.{IsTable, GoesOn, GoesFrom, walks_over, ways_at};

use crate::path::Path;
use crate::row::{Row, has_from, nodes_at, number_at, place_behind};

/// The successors of the nodes, a number for each that is no more than its steps to the target, and the target.
#[derive(Drop)]
pub struct Table {
    pub rows: Vec<Row>,
    pub far: Vec<u32>,
    pub to: u32,
}

impl Table {
    /// Goes on from the last node of a walk to the target by at most so many steps, and tells whether it could.
    #[cycle(descend)]
    pub fn descend(&self, walk: &mut Path, left: u32) -> bool
        requires table { IsTable self.now.rows.items self.now.far.items self.now.to }
        requires some { 0 < length walk.old.nodes }
        requires room { length walk.old.nodes + left ≤ walk.old.room }
        ensures { GoesOn (λ used a. simple_along (row_of self.now.rows.items) used a self.now.to left) walk.old walk.new result }
    {
        if walk.last() == self.to {
            return true;
        }
        if left == 0 {
            return false;
        }
        self.enter(walk, left - 1, 0)
    }

    // Goes on over the target, where it is one of the successors of the last node from a place on: no other is near enough
    // with one step left.
    fn close(&self, walk: &mut Path, first: usize) -> bool
        requires table { IsTable self.now.rows.items self.now.far.items self.now.to }
        requires some { 0 < length walk.old.nodes }
        requires room { length walk.old.nodes < walk.old.room }
        ensures { GoesOn (λ used a. walks_over (row_of self.now.rows.items) self.now.to 0 (drop first (row_of self.now.rows.items a)) used a) walk.old walk.new result }
    {
        if !has_from(nodes_at(&self.rows, walk.last()), first, self.to) || walk.has(self.to) {
            return false;
        }
        walk.push(self.to);
        true
    }

    // Goes on over one of the successors of the last node, from a place on.
    #[cycle(descend)]
    fn enter(&self, walk: &mut Path, left: u32, first: usize) -> bool
        requires table { IsTable self.now.rows.items self.now.far.items self.now.to }
        requires some { 0 < length walk.old.nodes }
        requires room { length walk.old.nodes + left < walk.old.room }
        ensures { GoesOn (λ used a. walks_over (row_of self.now.rows.items) self.now.to left (drop first (row_of self.now.rows.items a)) used a) walk.old walk.new result }
    {
        if left == 0 {
            return self.close(walk, first);
        }
        let row = nodes_at(&self.rows, walk.last());
        for place in first..row.len() {
            if self.step(walk, left, row[place]) {
                return true;
            }
        }
        false
    }

    // Goes on over a node, unless the target lies too far from it or it is there already.
    #[cycle(descend)]
    fn step(&self, walk: &mut Path, left: u32, node: u32) -> bool
        requires table { IsTable self.now.rows.items self.now.far.items self.now.to }
        requires some { 0 < length walk.old.nodes }
        requires room { length walk.old.nodes + left < walk.old.room }
        ensures { GoesOn (λ used a. walks_over (row_of self.now.rows.items) self.now.to left (node ∷ []) used a) walk.old walk.new result }
    {
        if number_at(&self.far, node) > left || walk.has(node) {
            return false;
        }
        let count = walk.len();
        walk.push(node);
        if self.descend(walk, left) {
            return true;
        }
        walk.cut(count);
        false
    }

    /// Makes the way on from a place of a walk the next one.
    pub fn advance(&self, walk: &mut Path, place: u32, left: u32) -> bool
        requires table { IsTable self.now.rows.items self.now.far.items self.now.to }
        requires within { place < length walk.old.nodes }
        requires room { place + left < walk.old.room }
        requires there { Contains (ways_at (row_of self.now.rows.items) self.now.to left walk.old.nodes place) (drop place walk.old.nodes) }
        ensures { GoesFrom (row_of self.now.rows.items) self.now.to left place walk.old walk.new result }
    {
        let count = walk.len();
        let behind = place + 1;
        if behind == count {
            return false;
        }
        let node = walk.node(place);
        let other = walk.node(behind);
        if self.advance(walk, behind, left - 1) {
            return true;
        }
        walk.cut(behind);
        let first = place_behind(nodes_at(&self.rows, node), other);
        self.enter(walk, left - 1, first)
    }
}
