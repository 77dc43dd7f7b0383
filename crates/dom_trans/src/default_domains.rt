// Which default domain of a new process a rule sets.
ghost use Rattle.std.specs.Prelude.{◌≡◌};
ghost use Rattle.pol_read.specs.StoredRules.{stored};
ghost use Rattle.dom_trans.specs.DefaultRules.{is_value, sets_default, part_has_default};
ghost use Rattle.dom_trans.specs.Inner.Targets.{part_sets};

use pol_read::{Rule, RuleKind, RulePart};

/// Whether a rule sets the default type of a class: it is a type_transition without a file name.
pub fn sets_default(class: Option<u32>, rule: &Rule<'_>) -> bool
    ensures { result ≡ sets_default class (stored rule.now) }
{
    match rule.kind {
        RuleKind::TypeTransition => rule.name.is_none() && is_value(class, rule.class),
        _ => false,
    }
}

/// Whether a value is that one.
pub fn is_value(other: Option<u32>, value: u32) -> bool
    ensures { result ≡ is_value other value }
{
    match other {
        Some(other) => value == other,
        None => false,
    }
}

/// Whether the default of a rule is that type.
pub fn has_default(value: u32, rule: &Rule<'_>) -> bool
    ensures { result ≡ part_has_default value (stored rule.now).part }
{
    match &rule.part {
        RulePart::Default(other) => *other == value,
        _ => false,
    }
}

/// The default that a rule sets, if it sets one.
pub fn default_in(rule: &Rule<'_>) -> Option<u32>
    ensures { result ≡ part_sets (stored rule.now).part }
{
    match &rule.part {
        RulePart::Default(default) => Some(*default),
        _ => None,
    }
}
