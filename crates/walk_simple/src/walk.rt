// A walk that is changed in place.
ghost use Rattle.std.specs.Prelude.{◌≡◌, ◌≤◌, ◌<◌, ◌∷◌, [], IfOk, length, slice_index};

use crate::path::Path;
use std::alloc::{AllocError, Global};
use std::marker::Model;

/// A walk. Contracts see the list of its nodes, from the source to the target, and the number of nodes that it has room
/// for.
#[derive(Drop)]
pub struct SimpleWalk {
    pub(crate) path: Path,
    // Where the next walk is looked for.
    pub(crate) other: Path,
}

impl Model for SimpleWalk {
    ghost use Rattle.std.specs.Prelude.{◌≡◌};
    ghost use Rattle.walk_simple.specs.Rooms.{WalkInRoom};

    ghost Value = { WalkInRoom };

    ghost view = { λ w. w.path };

    ghost invariant = { λ w. w.other.room ≡ w.path.room };
}

impl SimpleWalk {
    /// The node at a place, counted from 0.
    pub fn node(&self, i: u32) -> u32
        requires { i < length self.now.nodes }
        ensures { result ≡ slice_index self.now.nodes i }
    {
        self.path.node(i)
    }

    /// The number of nodes, one more than that of the steps.
    pub fn len(&self) -> u32
        ensures { result ≡ length self.now.nodes }
    {
        self.path.len()
    }
}
