// Walks of a kind, one after the other.
ghost use Rattle.std.specs.Prelude.{◌≡◌, ◌<◌, Contains, length, slice_index};
ghost use Rattle.walk_enum.specs.Moving.{Moves};
ghost use Rattle.se_walks.specs.Inner.Placed.{all_walks, next_walk};

use crate::walk_kinds::{ShortestWalks, SimpleWalks};

/// Walks from a node to a node, and the one that is next.
#[derive(Drop)]
pub enum Walks {
    Shortest(ShortestWalks),
    Simple(SimpleWalks),
}

impl Walks {
    /// Goes on to the next walk, and tells whether there was one. If not, the walk stays.
    pub fn advance(&mut self) -> bool
        requires { Contains (all_walks self.old) (next_walk self.old) }
        ensures all { all_walks self.new ≡ all_walks self.old }
        ensures moves { Moves (all_walks self.old) (next_walk self.old) (next_walk self.new) result }
    {
        match self {
            Walks::Shortest(walks) => walks.layers.next_walk(&mut walks.walk),
            Walks::Simple(walks) => walks.simple.next_walk(&mut walks.walk),
        }
    }

    /// The number of nodes of the walk.
    pub fn len(&self) -> u32
        requires { Contains (all_walks self.now) (next_walk self.now) }
        ensures len { result ≡ length (next_walk self.now) }
        ensures some { 0 < result }
    {
        match self {
            Walks::Shortest(walks) => {
                // Each walk has a node.
                let _ = walks.layers.length();
                walks.walk.len()
            }
            Walks::Simple(walks) => walks.walk.len(),
        }
    }

    /// The node of the walk at a place, counted from 0.
    pub fn node(&self, i: u32) -> u32
        requires { i < length (next_walk self.now) }
        ensures { result ≡ slice_index (next_walk self.now) i }
    {
        match self {
            Walks::Shortest(walks) => walks.walk.node(i),
            Walks::Simple(walks) => walks.walk.node(i),
        }
    }
}
