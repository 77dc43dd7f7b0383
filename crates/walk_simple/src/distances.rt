// The numbers of steps to the target.
ghost use Rattle.std.specs.Prelude.{◌≡◌, ◌≤◌, ◌<◌, ◌+◌, IfOk, length, slice_index, nat_le};
ghost use Rattle.std.specs.List.{list_any};
ghost use Rattle.walk_enum.specs.Inner.Turns.{row_of};
ghost use Rattle.walk_simple.specs.Inner.Tables.{AreBounds};
ghost use Rattle.walk_simple.specs.Inner.Distances.{Settles};

use crate::row::{Row, number_at};
use std::alloc::{AllocError, Global};

/// By node, the least number of steps to the target along the rows, or one more than the most where there are more.
pub fn distances(alloc: Global, rows: &[Row], to: u32, most: u32) -> Result<Vec<u32>, AllocError>
    requires within { to < length rows.now }
    requires few { most ≤ 99 }
    ensures { IfOk result (λ far. AreBounds (row_of rows.now) to far.items) }
{
    let mut far = vec![in alloc; most + 1; rows.len()]?;
    far[to as usize] = 0;
    for steps in 0..most {
        settle(rows, &mut far, steps);
    }
    Ok(far)
}

// Puts the nodes that have a successor within so many steps within one more.
fn settle(rows: &[Row], far: &mut Vec<u32>, steps: u32)
    requires long { length far.old.items ≡ length rows.now }
    requires few { steps < 99 }
    ensures { Settles (row_of rows.now) far.old.items far.new.items steps }
{
    for node in 0..rows.len() {
        if far[node] > steps && has_near(rows[node].as_slice(), far, steps) {
            far[node] = steps + 1;
        }
    }
}

// Whether a node of a row lies within so many steps.
fn has_near(row: &[u32], far: &[u32], steps: u32) -> bool
    ensures { result ≡ list_any (λ s. nat_le (slice_index far.now s) steps) row.now }
{
    row.iter().any(|node| number_at(far, *node) <= steps)
}
