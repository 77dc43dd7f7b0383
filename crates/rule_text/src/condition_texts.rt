//! The text of the condition that a rule stands under.

ghost use Rattle.std.specs.Prelude.{◌≡◌, ◌++◌, OnOk};
ghost use Rattle.pol_symbols.specs.PolicySymbols.{name_in};
ghost use Rattle.pol_read.specs.DeclaredRules.{StandsUnder};
ghost use Rattle.rule_text.specs.ConditionTexts.{branch_text, condition_text};

use pol_read::{Condition, Policy};
use std::alloc::AllocError;

/// Adds the condition behind a rule, or nothing where it stands under none.
#[tactic(auto, unfolding(crate::specs::ConditionTexts::condition_text))]
pub fn push_condition(
    buffer: &mut Vec<u8>,
    policy: &Policy<'_>,
    condition: Option<Condition>,
) -> Result<(), AllocError>
    requires { StandsUnder policy.now.rules.conditionals condition }
    ensures { OnOk result (buffer.new.items ≡ buffer.old.items ++ condition_text (name_in policy.now.symbols) policy.now.rules.conditionals condition) }
{
    let Some(condition) = condition else {
        return Ok(());
    };
    let alloc = *buffer.allocator();
    let expression = policy
        .condition(condition.node)
        .infix(alloc, policy.symbols())?;
    buffer.extend_from_slice(b" [ ")?;
    buffer.extend_from_slice(&expression)?;
    buffer.extend_from_slice(b" ]:")?;
    buffer.extend_from_slice(branch_text(condition.branch))
}

// Whether a rule holds where its condition is true, or where it is false.
fn branch_text(branch: bool) -> &'static [u8]
    ensures { result.now ≡ branch_text branch }
{
    if branch { b"True" } else { b"False" }
}
