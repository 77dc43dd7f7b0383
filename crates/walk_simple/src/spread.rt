// One step of a search: the successors of a node are marked.
ghost use Rattle.std.specs.Prelude.{◌≡◌, ◌<◌, All, replicate, length, IfOk, OnOk};
ghost use Rattle.walk_enum.specs.Inner.Exploring.{Spreads};

use std::alloc::{AllocError, Global};

/// Marks the nodes of a row that are not marked, and puts them into the queue.
pub fn spread(marks: &mut Vec<usize>, queue: &mut Vec<u32>, row: &[u32]) -> Result<(), AllocError>
    requires { All (λ b. b < length marks.old.items) row.now }
    ensures { OnOk result (Spreads marks.old.items marks.new.items queue.old.items queue.new.items row.now 1) }
{
    for node in row {
        let place = *node as usize;
        if marks[place] == 0 {
            marks[place] = 1;
            queue.push(*node)?;
        }
    }
    Ok(())
}

/// As many zeros.
pub fn zeros(alloc: Global, count: usize) -> Result<Vec<usize>, AllocError>
    ensures { IfOk result (λ v. v.items ≡ replicate count 0) }
{
    vec![in alloc; 0; count]
}
