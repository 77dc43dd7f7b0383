// The answer of seconvert.
ghost use Rattle.pol_tree.specs.PolicyTree.{tree_of};
ghost use Rattle.pol_versions.specs.Conversion.{cannot, converted, Converts};
ghost use Rattle.se_status.specs.Conclusion.{Concludes};
ghost use Rattle.se_convert.specs.ConvertAnswer.{convert_answer, IsConversion};

use pol_read::Policy;
use pol_tree::{Tree, tree_of};
use pol_versions::{ConvertError, convert};
use se_outside::Sink;
use se_status::{Status, status_written};
use std::alloc::Global;
use tree_pages::write_tree;

/// Answers what seconvert is asked: writes the policy at a version, unless that cannot hold it. Beside the policy its tree is kept, and a
/// page of what is written.
#[tactic(auto, unfolding(crate::specs::ConvertAnswer::convert_answer))]
pub fn answer_convert<S: Sink>(
    alloc: Global,
    policy: &Policy<'_>,
    version: u32,
    out: &mut S,
) -> Status
    ensures answers { Concludes (convert_answer version policy.now)
        (S.state out.old) (S.state out.new) result }
    ensures conversion { IsConversion result }
{
    match converted(alloc, policy, version) {
        Ok(tree) => status_written(write_tree(alloc, &tree, out)),
        Err(ConvertError::CannotHold(unheld)) => Status::CannotHold(version, unheld),
        Err(ConvertError::Memory) => Status::Memory,
    }
}

// The tree of a policy at a version.
fn converted(alloc: Global, policy: &Policy<'_>, version: u32) -> Result<Tree, ConvertError>
    ensures { Converts (cannot (tree_of policy.now) version) (converted (tree_of policy.now) version) result }
{
    let tree = tree_of(alloc, policy)?;
    // the clause says that the tree is that of a policy
    policy.is_accepted();
    convert(alloc, tree, version)
}
