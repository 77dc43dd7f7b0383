// The successors of a node as they are kept.
ghost use Rattle.std.specs.Prelude.{◌≡◌};
ghost use Rattle.pol_bitmap.specs.Nodes.{bits_of};
ghost use Rattle.pol_bitmap.specs.Sets.{IsSet};

use pol_bitmap::Set;
use std::marker::Model;

/// The successors of a node, in the set that the graph gave. Contracts see the list of them, rising.
///
/// Of many successors, 64 at a time are set against those of another set. Of a few, each is looked at.
#[derive(Drop)]
pub struct Successors {
    set: Set,
    is_many: bool,
}

impl Model for Successors {
    ghost use Rattle.std.specs.Prelude.{ℕ, List};
    ghost use Rattle.pol_bitmap.specs.Nodes.{bits_of};
    ghost use Rattle.pol_bitmap.specs.Sets.{IsSet};

    ghost Value = { List ℕ };

    ghost view = { λ s. bits_of s.set };

    ghost invariant = { λ s. IsSet s.set };
}

impl Successors {
    /// The members of a set, which are many from a number of them on.
    pub fn new(set: Set, many: u64) -> Successors
        ensures form { IsSet set }
        ensures bits { result ≡ bits_of set }
    {
        let is_many = set.count() >= many;
        Successors { set, is_many }
    }

    /// The set of them.
    pub fn as_set(&self) -> &Set
        ensures form { IsSet result.now }
        ensures bits { bits_of result.now ≡ self.now }
    {
        &self.set
    }

    /// Whether they are many. This is about time, and changes no result.
    pub fn is_many(&self) -> bool {
        self.is_many
    }
}
