// The answer of sechecker about a policy and a checklist.
ghost use Rattle.text_rows.specs.declared.limits.TheConstants.{MAX_TEXT_BYTES};
ghost use Rattle.std.specs.Prelude.{◌≤◌, length};
ghost use Rattle.se_items.specs.Writing.{Sends};
ghost use Rattle.se_status.specs.Conclusion.{Concludes};
ghost use Rattle.se_verdicts.specs.CheckAnswer.{IsOfList, check_answer, checks_text};

use crate::check_lines::CheckLines;
use check_list::{CheckList, ListError};
use pol_read::Policy;
use rule_text::RuleTexts;
use se_checker::{Checker, unknown_name};
use se_items::{WriteEnd, write_pieces};
use se_outside::Sink;
use se_status::{Status, status_written};
use std::alloc::Global;

/// Holds a policy to the checklist with these bytes, and writes what each check finds. Nothing is written where the list is refused.
#[tactic(auto, unfolding(crate::specs::CheckAnswer::check_answer))]
pub fn answer_check<S: Sink>(
    alloc: Global,
    policy: &Policy<'_>,
    bytes: &[u8],
    out: &mut S,
) -> Status
    requires { length bytes.now ≤ MAX_TEXT_BYTES }
    ensures answers { Concludes (check_answer policy.now bytes.now) (S.state out.old) (S.state out.new) result }
    ensures about { IsOfList result }
{
    let list = match CheckList::read(alloc, bytes) {
        Ok(list) => list,
        Err(ListError::Fault(fault)) => return Status::BadList(fault),
        Err(ListError::Memory) => return Status::Memory,
    };
    match unknown_name(policy, &list) {
        Some(fault) => Status::BadList(fault),
        None => status_written(write_checks(alloc, policy, &list, out)),
    }
}

// Writes the lines of all checks.
#[tactic(auto, using(se_items::proofs::Wrotes::nothing_sent), unfolding(crate::specs::CheckAnswer::checks_text))]
fn write_checks<S: Sink>(
    alloc: Global,
    policy: &Policy<'_>,
    list: &CheckList<'_>,
    out: &mut S,
) -> Result<(), WriteEnd>
    ensures { Sends (S.state out.old) (S.state out.new) (checks_text policy.now list.now) result }
{
    let checker = Checker::new(alloc, policy)?;
    let texts = RuleTexts::new(alloc, policy)?;
    let mut lines = CheckLines::new(alloc, &checker, &texts, list);
    write_pieces(alloc, &mut lines, out)
}
