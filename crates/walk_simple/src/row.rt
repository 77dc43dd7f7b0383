// Rows of nodes, and of numbers of nodes, looked up by a node.
ghost use Rattle.std.specs.Prelude.{◌≡◌, ◌++◌, ◌∷◌, ◌↔◌, ℕ, [], Contains, IfOk, IsTrue, drop, length, slice_index};
ghost use Rattle.std.specs.List.Sorted.{IsStrictlyIncreasing};
ghost use Rattle.walk_enum.specs.Inner.Turns.{row_of};
ghost use Rattle.walk_simple.specs.Inner.Tables.{IsBehind};

use std::alloc::{AllocError, Global};
use std::marker::Model;

/// Nodes in a row. Contracts see the list of them.
#[derive(Drop)]
pub struct Row {
    nodes: Vec<u32>,
}

impl Model for Row {
    ghost use Rattle.std.specs.Prelude.{ℕ, List};

    ghost Value = { List ℕ };

    ghost view = { λ row. row.nodes.items };
}

impl Row {
    pub fn new(nodes: Vec<u32>) -> Row
        ensures { result ≡ nodes.items }
    {
        Row { nodes }
    }

    pub fn as_slice(&self) -> &[u32]
        ensures { result.now ≡ self.now }
    {
        self.nodes.as_slice()
    }
}

/// As many empty rows.
pub fn empty_rows(alloc: Global, count: usize) -> Result<Vec<Row>, AllocError>
    ensures count { IfOk result (λ rows. length rows.items ≡ count) }
    ensures empty { IfOk result (λ rows. (a : ℕ) → row_of rows.items a ≡ []) }
{
    let mut rows = Vec::with_capacity(alloc, count)?;
    for _ in 0..count {
        rows.push(Row::new(Vec::new(alloc)))?;
    }
    Ok(rows)
}

/// A node's row, or none.
pub fn nodes_at(rows: &[Row], node: u32) -> &[u32]
    ensures { result.now ≡ row_of rows.now node }
{
    match rows.get(node as usize) {
        Some(row) => row.as_slice(),
        None => &[],
    }
}

/// A node's number, or 0.
pub fn number_at(numbers: &[u32], node: u32) -> u32
    ensures { result ≡ slice_index numbers.now node }
{
    match numbers.get(node as usize) {
        Some(number) => *number,
        None => 0,
    }
}

/// Whether a row has a node from a place on.
pub fn has_from(row: &[u32], first: usize, node: u32) -> bool
    requires { IsStrictlyIncreasing row.now }
    ensures { IsTrue result ↔ Contains (drop first row.now) node }
{
    match row.binary_search(&node) {
        Ok(place) => first <= place,
        Err(_) => false,
    }
}

/// The place behind a node of a row.
pub fn place_behind(row: &[u32], node: u32) -> usize
    requires rising { IsStrictlyIncreasing row.now }
    requires there { Contains row.now node }
    ensures { IsBehind row.now node result }
{
    row.partition_point(|other| *other <= node)
}
