// The kinds of walks, each with the one of them that is next.
ghost use Rattle.std.specs.Prelude.{◌≤◌, ◌<◌, ◌+◌, ℕ, List, Contains, length};

use walk_enum::{Layers, Walk};
use walk_simple::{Simple, SimpleWalk};

/// All shortest walks from a node to a node, and the one that is next.
#[derive(Drop)]
pub struct ShortestWalks {
    pub layers: Layers,
    pub walk: Walk,
}

/// All walks of at most so many steps that have no node twice, and the one that is next.
#[derive(Drop)]
pub struct SimpleWalks {
    pub simple: Simple,
    pub walk: SimpleWalk,
    pub ghost room: { simple.most + 1 ≤ walk.room },
    pub ghost some: { (nodes : List ℕ) → Contains simple.walks nodes → 0 < length nodes },
}
