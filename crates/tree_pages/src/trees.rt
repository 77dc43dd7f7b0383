// Whole trees, counted and written.
ghost use Rattle.std.specs.Prelude.{◌≡◌, ◌-◌, ◌^◌, IfOk, length, min};
ghost use Rattle.pol_tree.specs.TreeSpelling.{spell};
ghost use Rattle.se_items.specs.Writing.{Sends};

use crate::paged::Paged;
use crate::tree::WholeTree;
use pol_tree::Tree;
use se_items::{WriteEnd, page_buffer, write_all};
use se_outside::Sink;
use std::alloc::{AllocError, Global};

/// How many bytes a tree has in a file, up to the greatest number. They are made one record after the other.
pub fn tree_length(alloc: Global, tree: &Tree) -> Result<u64, AllocError>
    ensures { IfOk result (λ total. total ≡ min (length (spell tree.now)) (2 ^ 64 - 1)) }
{
    let mut buffer = Vec::new(alloc);
    WholeTree(tree).count(0, &mut buffer)
}

/// Writes the bytes of a tree. No more of them than a page and a record is kept.
#[tactic(auto, using(se_items::proofs::Wrotes::nothing_sent))]
pub fn write_tree<S: Sink>(alloc: Global, tree: &Tree, out: &mut S) -> Result<(), WriteEnd>
    ensures { Sends (S.state out.old) (S.state out.new) (spell tree.now) result }
{
    let mut buffer = page_buffer(alloc)?;
    WholeTree(tree).send(&mut buffer, out)?;
    Ok(write_all(out, &buffer)?)
}
