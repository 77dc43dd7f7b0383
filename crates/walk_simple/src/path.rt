// A path in the memory that it has.
ghost use Rattle.std.specs.Prelude.{◌≡◌, ◌≤◌, ◌<◌, ◌-◌, ◌^◌, ◌++◌, ◌∷◌, ◌==◌, [], IfOk, length, slice_index, take};
ghost use Rattle.std.specs.List.{list_any};

use std::alloc::{AllocError, Global};
use std::marker::Model;

/// Nodes in a row, in room for more. Contracts see the nodes and the room.
#[derive(Drop)]
pub struct Path {
    // The first so many stand for nodes.
    slots: Vec<u32>,
    count: u32,
}

impl Model for Path {
    ghost use Rattle.std.specs.Prelude.{◌≤◌, length, take};
    ghost use Rattle.walk_simple.specs.Rooms.{WalkInRoom};

    ghost Value = { WalkInRoom };

    ghost view = { λ p. record { nodes = take p.count p.slots.items; room = length p.slots.items } };

    ghost invariant = { λ p. (p.count ≤ length p.slots.items) × (length p.slots.items ≤ 100) };
}

impl Path {
    /// One node, in room for so many.
    pub fn new(alloc: Global, node: u32, room: u32) -> Result<Path, AllocError>
        requires some { 1 ≤ room }
        requires few { room ≤ 100 }
        ensures nodes { IfOk result (λ p. p.nodes ≡ node ∷ []) }
        ensures room { IfOk result (λ p. p.room ≡ room) }
    {
        Ok(Path {
            slots: vec![in alloc; node; room as usize]?,
            count: 1,
        })
    }

    /// The number of nodes.
    pub fn len(&self) -> u32
        ensures nodes { result ≡ length self.now.nodes }
        ensures few { result ≤ 100 }
    {
        self.count
    }

    /// The node at a place, counted from 0.
    pub fn node(&self, i: u32) -> u32
        requires { i < length self.now.nodes }
        ensures { result ≡ slice_index self.now.nodes i }
    {
        self.slots[i as usize]
    }

    /// The last node.
    pub fn last(&self) -> u32
        requires { 0 < length self.now.nodes }
        ensures { result ≡ slice_index self.now.nodes (length self.now.nodes - 1) }
    {
        self.node(self.count - 1)
    }

    /// Whether a node is there.
    pub fn has(&self, node: u32) -> bool
        ensures { result ≡ list_any (λ n. n == node) self.now.nodes }
    {
        self.slots[..self.count as usize]
            .iter()
            .any(|other| *other == node)
    }

    /// One node more.
    pub fn push(&mut self, node: u32)
        requires { length self.old.nodes < self.old.room }
        ensures nodes { self.new.nodes ≡ self.old.nodes ++ node ∷ [] }
        ensures room { self.new.room ≡ self.old.room }
    {
        self.slots[self.count as usize] = node;
        self.count += 1;
    }

    /// Its first nodes alone.
    pub fn cut(&mut self, count: u32)
        requires { count ≤ length self.old.nodes }
        ensures nodes { self.new.nodes ≡ take count self.old.nodes }
        ensures room { self.new.room ≡ self.old.room }
    {
        self.count = count;
    }

    /// The nodes of another path of the same room.
    pub fn copy(&mut self, other: &Path)
        requires { self.old.room ≡ other.now.room }
        ensures { self.new ≡ other.now }
    {
        self.slots.copy_from_slice(&other.slots);
        self.count = other.count;
    }
}
