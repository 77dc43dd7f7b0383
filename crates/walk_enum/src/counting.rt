// How many walks lead from each node to the target.
ghost use Rattle.std.specs.Prelude.{◌≡◌, ◌<◌, IfOk, length, slice_index};
ghost use Rattle.walk_enum.specs.Inner.Counting.{AreCounts, AreOrdered, capped, noted, total};
ghost use Rattle.walk_enum.specs.Inner.Turns.{row_of};

use crate::row::{Row, nodes_at};
use std::alloc::{AllocError, Global};

/// By node, the number of walks from it to the target, or 2^64 - 1 where there are more.
pub fn walk_counts(
    alloc: Global,
    rows: &[Row],
    order: &[u32],
    to: u32,
) -> Result<Vec<u64>, AllocError>
    requires { AreOrdered rows.now order.now to }
    ensures { IfOk result (λ counts. AreCounts (row_of rows.now) to counts.items) }
{
    let mut counts = zeros(alloc, rows.len())?;
    counts[to as usize] = 1;
    let count = order.len();
    for back in 0..count {
        let node = order[count - 1 - back];
        note(&mut counts, node, nodes_at(rows, node));
    }
    Ok(counts)
}

// As many zeros.
fn zeros(alloc: Global, count: usize) -> Result<Vec<u64>, AllocError>
    ensures { IfOk result (λ v. length v.items ≡ count) }
{
    vec![in alloc; 0; count]
}

// Puts down the number of a node that has successors, whose numbers are there.
fn note(counts: &mut Vec<u64>, node: u32, row: &[u32])
    requires { node < length counts.old.items }
    ensures { counts.new.items ≡ noted counts.old.items node row.now }
{
    if !row.is_empty() {
        counts[node as usize] = ways_on(counts, row);
    }
}

// The sum of the numbers of some nodes.
fn ways_on(counts: &[u64], row: &[u32]) -> u64
    ensures { result ≡ capped (total (slice_index counts.now) row.now) }
{
    let mut ways: u64 = 0;
    for node in row {
        ways = ways.saturating_add(count_at(counts, *node));
    }
    ways
}

/// A node's number of walks, or 0.
pub fn count_at(counts: &[u64], node: u32) -> u64
    ensures { result ≡ slice_index counts.now node }
{
    match counts.get(node as usize) {
        Some(count) => *count,
        None => 0,
    }
}
