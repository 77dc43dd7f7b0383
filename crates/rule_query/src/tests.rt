// What a rule is compared with, criterion by criterion.
ghost use Rattle.std.specs.Prelude.{◌≡◌, ◌<◌, length, option_map};
ghost use Rattle.pol_read.specs.StoredRules.{stored_rules};
ghost use Rattle.rule_query.specs.Inner.NumberedRules.{IsRuleAt, rule_at};
ghost use Rattle.rule_query.specs.QueryTests.{class_test, condition_test, default_test, rule_test, types_of};
ghost use Rattle.rule_query.specs.Inner.LookedUp.{reads_rule};

use crate::ends::Ends;
use crate::given::Aspect;
use crate::marked_set::{MarkedSet, has_value};
use pol_bitmap::Set;
use pol_read::{Condition, Policy, RuleEnds, RuleKind, RulePart};
use rule_tests::{NumberTest, PermissionTest};

/// What meets a criterion, by values and numbers.
#[derive(Drop)]
pub enum Test {
    Source(Ends),
    Target(Ends),
    Class(Set),
    Permissions(PermissionTest),
    Numbers(NumberTest),
    Default(Ends),
    /// Numbers of conditional nodes.
    Condition(Set),
}

impl Test {
    /// The types and attributes that it asks for at an end of rules, where it is a test of that end.
    pub fn types_of(&self, end: Aspect) -> Option<&MarkedSet>
        ensures { option_map (λ set. set.now) result ≡ types_of end self.now }
    {
        match (end, self) {
            (Aspect::Source, Test::Source(ends)) | (Aspect::Target, Test::Target(ends)) => {
                Some(&ends.types)
            }
            _ => None,
        }
    }

    /// Whether the rule is read whole for it, and not its ends and its class alone.
    pub fn reads_rule(&self) -> bool
        ensures { result ≡ reads_rule self.now }
    {
        !matches!(self, Test::Source(_) | Test::Target(_) | Test::Class(_))
    }

    /// Whether the stored rule of that number, which has these ends, passes. The whole rule is found only where more of it is asked.
    /// Takes no memory.
    pub fn passes(&self, policy: &Policy<'_>, number: u32, ends: RuleEnds) -> bool
        requires { IsRuleAt policy.now number ends }
        ensures { result ≡ rule_test policy.now.symbols (rule_at policy.now number) self.now }
    {
        let RuleEnds {
            kind,
            source,
            target,
            class,
        } = ends;
        match self {
            Test::Source(ends) => ends.has(kind.source_table(), source),
            Test::Target(ends) => ends.has(kind.target_table(), target),
            Test::Class(classes) => has_class(classes, kind, class),
            Test::Permissions(test) => test.meets(
                policy.symbols(),
                class,
                &part_of(policy, number),
            ),
            Test::Numbers(test) => test.meets(&part_of(policy, number)),
            Test::Default(ends) => has_default(ends, kind, &part_of(policy, number)),
            Test::Condition(nodes) => is_under(nodes, condition_of(policy, number)),
        }
    }
}

// What a stored rule gives besides its ends.
#[tactic(auto, using(crate::proofs::NumberedRules::is_there))]
fn part_of<'a>(policy: &Policy<'a>, number: u32) -> RulePart<'a>
    requires { number < length (stored_rules policy.now) }
    ensures { result ≡ (rule_at policy.now number).part }
{
    policy.rule(number).part
}

// The condition that a stored rule stands under.
#[tactic(auto, using(crate::proofs::NumberedRules::is_there))]
fn condition_of(policy: &Policy<'_>, number: u32) -> Option<Condition>
    requires { number < length (stored_rules policy.now) }
    ensures { result ≡ (rule_at policy.now number).condition }
{
    policy.rule(number).condition
}

// Whether the class of a rule is one of these. A role allow has none.
fn has_class(classes: &Set, kind: RuleKind, class: u32) -> bool
    ensures { result ≡ class_test classes.now kind class }
{
    match kind {
        RuleKind::RoleAllow => false,
        _ => has_value(classes, class),
    }
}

// Whether the default of a rule is, where it has one.
fn has_default(ends: &Ends, kind: RuleKind, part: &RulePart<'_>) -> bool
    ensures { result ≡ default_test ends.now kind part.now }
{
    match part {
        RulePart::Default(value) => ends.has(kind.default_table(), *value),
        _ => false,
    }
}

// Whether a rule is under one of these nodes.
fn is_under(nodes: &Set, condition: Option<Condition>) -> bool
    ensures { result ≡ condition_test nodes.now condition }
{
    match condition {
        Some(condition) => has_value(nodes, condition.node),
        None => false,
    }
}
