// One step of a search: the successors of a node get a depth.
ghost use Rattle.std.specs.Prelude.{◌≡◌, ◌≤◌, ◌<◌, ◌+◌, All, replicate, length, IfOk, OnOk, MatchBool};
ghost use Rattle.pol_bitmap.specs.Nodes.{bits_of};
ghost use Rattle.walk_enum.specs.Inner.Exploring.{Spreads, AreFound, GoesOn, IsAtEnd};

use crate::row::number_at;
use crate::successors::Successors;
use pol_bitmap::Set;
use std::alloc::{AllocError, Global};

// So many nodes that had a depth are looked at before they are left out.
const LOOKED_AT: u64 = 16;

/// Gives a depth to the nodes found that have none, and puts them into the queue. Known nodes have one, and become more.
pub fn spread(
    alloc: Global,
    depths: &mut Vec<usize>,
    queue: &mut Vec<u32>,
    known: &mut Set,
    found: &Successors,
    depth: usize,
) -> Result<(), AllocError>
    requires range { All (λ b. b < length depths.old.items) found.now }
    requires some { 1 ≤ depth }
    requires known { AreFound depths.old.items (bits_of known.old) }
    ensures spreads { OnOk result (Spreads depths.old.items depths.new.items queue.old.items queue.new.items found.now depth) }
    ensures known { OnOk result (AreFound depths.new.items (bits_of known.new)) }
{
    if !found.is_many() {
        return spread_each(depths, queue, found.as_set(), depth);
    }
    let others = found.as_set().difference(alloc, known)?;
    spread_each(depths, queue, &others, depth)?;
    if others.count() > LOOKED_AT {
        *known = known.union(alloc, &others)?;
    }
    Ok(())
}

// Gives a depth to the members of a set that have none, and puts them into the queue.
fn spread_each(
    depths: &mut Vec<usize>,
    queue: &mut Vec<u32>,
    found: &Set,
    depth: usize,
) -> Result<(), AllocError>
    requires range { All (λ b. b < length depths.old.items) (bits_of found.now) }
    requires some { 1 ≤ depth }
    ensures { OnOk result (Spreads depths.old.items depths.new.items queue.old.items queue.new.items (bits_of found.now) depth) }
{
    for node in found.bits() {
        let place = node as usize;
        if depths[place] == 0 {
            depths[place] = depth;
            queue.push(node)?;
        }
    }
    Ok(())
}

/// As many zeros.
pub fn zeros(alloc: Global, count: usize) -> Result<Vec<usize>, AllocError>
    ensures { IfOk result (λ v. v.items ≡ replicate count 0) }
{
    vec![in alloc; 0; count]
}

/// Whether the next node of the queue is to be asked.
pub fn goes_on(depths: &[usize], queue: &[u32], head: usize, to: u32) -> bool
    ensures { MatchBool result (GoesOn depths.now queue.now head to) (IsAtEnd depths.now queue.now head to) }
{
    if head >= queue.len() {
        return false;
    }
    let end = number_at(depths, to);
    end == 0 || number_at(depths, queue[head]) < end
}
