// A walk that is changed in place.
ghost use Rattle.std.specs.Prelude.{◌≡◌, ◌<◌, ◌+◌, ◌^◌, IfOk, length, replicate, slice_index, slice_set};

use std::alloc::{AllocError, Global};
use std::marker::Model;

/// A walk. Contracts see the list of its nodes, from the source to the target.
#[derive(Drop)]
pub struct Walk {
    nodes: Vec<u32>,
}

impl Model for Walk {
    ghost use Rattle.std.specs.Prelude.{ℕ, List, ◌<◌, ◌^◌, length};

    ghost Value = { List ℕ };

    ghost view = { λ w. w.nodes.items };

    ghost invariant = { λ w. length w.nodes.items < 2 ^ 32 };
}

impl Walk {
    /// So many nodes, all the same.
    pub(crate) fn new(alloc: Global, node: u32, count: u32) -> Result<Walk, AllocError>
        ensures { IfOk result (λ w. w ≡ replicate count node) }
    {
        Ok(Walk {
            nodes: vec![in alloc; node; count as usize]?,
        })
    }

    /// The node at a place, counted from 0.
    pub fn node(&self, i: u32) -> u32
        requires { i < length self.now }
        ensures { result ≡ slice_index self.now i }
    {
        self.nodes[i as usize]
    }

    /// The number of nodes, one more than that of the steps.
    pub fn len(&self) -> u32
        ensures { result ≡ length self.now }
    {
        self.nodes.len() as u32
    }

    /// Puts another node at a place.
    pub(crate) fn set(&mut self, i: u32, node: u32)
        requires { i < length self.old }
        ensures { self.new ≡ slice_set self.old i node }
    {
        self.nodes[i as usize] = node;
    }
}
