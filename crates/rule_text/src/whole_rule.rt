//! The text of a whole rule.

ghost use Rattle.std.specs.Prelude.{◌≡◌, ◌++◌, OnOk, codes};
ghost use Rattle.pol_symbols.specs.PolicySymbols.{permissions_in_class};
ghost use Rattle.pol_read.specs.StoredRules.{stored};
ghost use Rattle.pol_read.specs.DeclaredRules.{StandsUnder};
ghost use Rattle.rule_text.specs.Inner.ClassPermissions.{ShowsPart};
ghost use Rattle.rule_text.specs.RuleFrames.{end_text, given_text};
ghost use Rattle.rule_text.specs.RuleTexts.{between, ends_text, keyword, rest_text, rule_text};

use crate::condition_texts::push_condition;
use crate::rule_parts::{push_class, push_file_name, push_head, push_part, push_target};
use pol_commons::PermissionView;
use pol_read::{Policy, Rule, RuleKind};
use pol_symbols::Symbols;
use std::alloc::AllocError;

/// Adds the text of a rule with these values as its ends. The permissions of its class are handed in by name, where it gives
/// permissions.
#[tactic(auto, unfolding(crate::specs::RuleTexts::rule_text, crate::specs::RuleTexts::rest_text))]
pub(crate) fn push_between(
    buffer: &mut Vec<u8>,
    policy: &Policy<'_>,
    rule: &Rule<'_>,
    source: u32,
    target: u32,
    permissions: &[PermissionView<'_>],
) -> Result<(), AllocError>
    requires shown { ShowsPart (permissions_in_class policy.now.symbols rule.now.class) rule.now.part permissions.now }
    requires under { StandsUnder policy.now.rules.conditionals rule.now.condition }
    ensures { OnOk result (buffer.new.items ≡ buffer.old.items ++ rule_text policy.now (between source target (stored rule.now))) }
{
    push_ends(buffer, policy.symbols(), rule.kind, source, target)?;
    push_rest(buffer, policy, rule, permissions)
}

// Adds the first word of the rules of a kind, and two ends.
#[tactic(auto, unfolding(crate::specs::RuleTexts::ends_text, crate::specs::RuleFrames::head_text))]
fn push_ends(
    buffer: &mut Vec<u8>,
    symbols: &Symbols<'_>,
    kind: RuleKind,
    source: u32,
    target: u32,
) -> Result<(), AllocError>
    ensures { OnOk result (buffer.new.items ≡ buffer.old.items ++ keyword kind ++ codes " " ++ ends_text symbols.now kind source target) }
{
    push_head(buffer, symbols, kind, source)?;
    push_target(buffer, symbols, kind, target)
}

/// Adds what stands behind the ends of a rule.
#[tactic(auto, unfolding(crate::specs::RuleTexts::rest_text, crate::specs::RuleFrames::given_text))]
pub(crate) fn push_rest(
    buffer: &mut Vec<u8>,
    policy: &Policy<'_>,
    rule: &Rule<'_>,
    permissions: &[PermissionView<'_>],
) -> Result<(), AllocError>
    requires shown { ShowsPart (permissions_in_class policy.now.symbols rule.now.class) rule.now.part permissions.now }
    requires under { StandsUnder policy.now.rules.conditionals rule.now.condition }
    ensures { OnOk result (buffer.new.items ≡ buffer.old.items ++ rest_text policy.now (stored rule.now)) }
{
    push_given(buffer, policy.symbols(), rule, permissions)?;
    push_end(buffer, rule)?;
    push_condition(buffer, policy, rule.condition)
}

/// Adds the class of a rule and what the rule gives.
#[tactic(auto, unfolding(crate::specs::RuleFrames::given_text))]
pub(crate) fn push_given(
    buffer: &mut Vec<u8>,
    symbols: &Symbols<'_>,
    rule: &Rule<'_>,
    permissions: &[PermissionView<'_>],
) -> Result<(), AllocError>
    requires { ShowsPart (permissions_in_class symbols.now rule.now.class) rule.now.part permissions.now }
    ensures { OnOk result (buffer.new.items ≡ buffer.old.items ++ given_text symbols.now rule.now.kind rule.now.class rule.now.part) }
{
    push_class(buffer, symbols, rule.kind, rule.class)?;
    push_part(buffer, symbols, rule, permissions)
}

/// Adds what stands between that and the condition: the name of the new object, where it has one, and the end.
pub fn push_end(buffer: &mut Vec<u8>, rule: &Rule<'_>) -> Result<(), AllocError>
    ensures { OnOk result (buffer.new.items ≡ buffer.old.items ++ end_text (stored rule.now)) }
{
    push_file_name(buffer, rule.name)?;
    Ok(buffer.push(b';')?)
}
