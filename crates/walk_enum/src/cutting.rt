// What was found, cut to what leads to the target.
ghost use Rattle.std.specs.Prelude.{◌≡◌, ◌≤◌, ◌<◌, ◌+◌, ◌^◌, All, IfOk, OnOk, length, slice_index, slice_set};
ghost use Rattle.std.specs.List.{filter};
ghost use Rattle.pol_bitmap.specs.Nodes.{bits_of};
ghost use Rattle.walk_enum.specs.Inner.Cutting.{goes_on, AreLeading, IsCut};

use crate::explore::Found;
use crate::leading::Leading;
use crate::row::{Row, empty_rows, nodes_at, number_at};
use crate::successors::Successors;
use pol_bitmap::Set;
use std::alloc::{AllocError, Global};

/// By node, the successors that lead to the target in as many steps as are left.
pub fn cut(alloc: Global, found: &Found, to: u32) -> Result<Vec<Row>, AllocError>
    requires queue { length found.now.rows.items ≤ length found.now.queue.items }
    requires fits { All (λ b. b < length found.now.depths.items) found.now.queue.items }
    requires shallow { All (λ d. d < 2 ^ 32) found.now.depths.items }
    ensures { IfOk result (λ kept. IsCut found.now.depths.items found.now.queue.items found.now.rows.items to kept.items 0) }
{
    let mut kept = empty_rows(alloc, found.depths.len())?;
    let mut leading = Leading::new(alloc, to)?;
    let count = found.rows.len();
    for back in 0..count {
        let place = count - 1 - back;
        let node = found.queue[place];
        let row = &found.rows[place];
        cut_node(alloc, node, row, &found.depths, &mut leading, &mut kept, to)?;
    }
    Ok(kept)
}

// Keeps the successors of a node that lead on.
fn cut_node(
    alloc: Global,
    node: u32,
    row: &Successors,
    depths: &[usize],
    leading: &mut Leading,
    kept: &mut Vec<Row>,
    to: u32,
) -> Result<(), AllocError>
    requires within { node < length kept.old.items }
    requires shallow { All (λ d. d < 2 ^ 32) depths.now }
    requires leading { AreLeading depths.now kept.old.items to (bits_of leading.old.set) leading.old.others.items leading.old.deepest }
    ensures kept { OnOk result (kept.new.items ≡ slice_set kept.old.items node (filter (goes_on depths.now kept.old.items to (slice_index depths.now node + 1)) row.now)) }
    ensures leading { OnOk result (AreLeading depths.now kept.new.items to (bits_of leading.new.set) leading.new.others.items leading.new.deepest) }
{
    let depth = number_at(depths, node);
    let ways = cut_row(alloc, row, depths, leading, kept, to, depth + 1)?;
    leading.note(node, depth, ways.as_slice())?;
    kept[node as usize] = ways;
    Ok(())
}

// The successors of a row that lie at a depth and lead on.
fn cut_row(
    alloc: Global,
    row: &Successors,
    depths: &[usize],
    leading: &mut Leading,
    kept: &[Row],
    to: u32,
    depth: usize,
) -> Result<Row, AllocError>
    requires { AreLeading depths.now kept.now to (bits_of leading.old.set) leading.old.others.items leading.old.deepest }
    ensures row { IfOk result (λ r. r ≡ filter (goes_on depths.now kept.now to depth) row.now) }
    ensures leading { OnOk result (AreLeading depths.now kept.now to (bits_of leading.new.set) leading.new.others.items leading.new.deepest) }
{
    if !row.is_many() {
        return cut_set(alloc, row.as_set(), depths, kept, to, depth);
    }
    leading.gather(alloc, depth)?;
    if !row.as_set().meets(&leading.set) {
        return Ok(Row::new(Vec::new(alloc)));
    }
    let near = row.as_set().common(alloc, &leading.set)?;
    cut_set(alloc, &near, depths, kept, to, depth)
}

// The members of a set that lie at a depth and lead on.
fn cut_set(
    alloc: Global,
    set: &Set,
    depths: &[usize],
    kept: &[Row],
    to: u32,
    depth: usize,
) -> Result<Row, AllocError>
    ensures { IfOk result (λ r. r ≡ filter (goes_on depths.now kept.now to depth) (bits_of set.now)) }
{
    let nodes = set
        .bits()
        .filter(|node| leads_on(depths, kept, to, depth, *node))
        .collect(alloc)?;
    Ok(Row::new(nodes))
}

fn leads_on(depths: &[usize], kept: &[Row], to: u32, depth: usize, node: u32) -> bool
    ensures { result ≡ goes_on depths.now kept.now to depth node }
{
    number_at(depths, node) == depth && (node == to || !nodes_at(kept, node).is_empty())
}
