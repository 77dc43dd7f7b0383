// The types of an attribute while they are gathered.
ghost use Rattle.std.specs.Prelude.{◌≡◌, ◌<◌, ◌++◌, ◌%◌, [], All, IfOk, OnOk};
ghost use Rattle.pol_bitmap.specs.Nodes.{bits_of, node_bits};

use pol_bitmap::{Node, Set};
use std::alloc::{AllocError, Global};
use std::marker::Model;

/// The types of an attribute, as nodes of their bits. Contracts see the list of their values.
#[derive(Drop)]
pub struct TypeList {
    nodes: Vec<Node>,
}

impl Model for TypeList {
    ghost use Rattle.std.specs.Prelude.{ℕ, List};
    ghost use Rattle.pol_bitmap.specs.Nodes.{bits_of};
    ghost use Rattle.pol_bitmap.specs.Sets.{IsSet};

    ghost Value = { List ℕ };

    ghost view = { λ list. bits_of list.nodes.items };

    ghost invariant = { λ list. IsSet list.nodes.items };
}

impl TypeList {
    /// The list of no type.
    pub fn new(alloc: Global) -> TypeList
        ensures { result ≡ [] }
    {
        TypeList {
            nodes: Vec::new(alloc),
        }
    }

    /// Appends the types of a word: a bit for each of the 64 from one on, which is a multiple of 64 and above all that are there.
    pub fn push_word(&mut self, start: u32, map: u64) -> Result<(), AllocError>
        requires whole { start % 64 ≡ 0 }
        requires above { All (λ other. other < start) self.old }
        ensures { OnOk result (self.new ≡ self.old ++ node_bits (record { start = start; map = map })) }
    {
        if map != 0 {
            self.nodes.push(Node { start, map })?;
        }
        Ok(())
    }

    /// The set of the types. That of no type is the empty set that is given.
    pub fn into_set(self, alloc: Global, empty: &Set) -> Result<Set, AllocError>
        requires { bits_of empty.now ≡ [] }
        ensures { IfOk result (λ set. bits_of set ≡ self) }
    {
        if self.nodes.is_empty() {
            return empty.share();
        }
        Set::from_nodes(alloc, self.nodes)
    }
}
