// The allow rules of a policy, class by class.
ghost use Rattle.std.specs.Prelude.{◌≡◌, ◌+◌, ◌++◌, ◌∷◌, ◌<◌, ℕ, [], IfOk, OnOk, length, slice_index_or};
ghost use Rattle.pol_read.specs.StoredRules.{stored, stored_rules};
ghost use Rattle.se_checker.specs.Verdicts.{allow_mask};
ghost use Rattle.se_checker.specs.Inner.AllowRules.{AreAllowRules, AreAllowed};

use pol_read::{Policy, Rule, RuleKind, RulePart};
use std::alloc::{AllocError, Global};
use std::marker::Model;

/// An allow rule, as checks look at it.
#[derive(Clone, Copy)]
pub struct AllowRule {
    pub number: u32,
    pub source: u32,
    pub target: u32,
    pub mask: u32,
}

/// Allow rules of a class. Contracts see the list of them.
#[derive(Drop)]
struct ClassRules {
    rules: Vec<AllowRule>,
}

impl Model for ClassRules {
    ghost use Rattle.std.specs.Prelude.{List};
    ghost use Rattle.se_checker.specs.declared.allow_rules.AllowRule.{AllowRule};

    ghost Value = { List AllowRule };

    ghost view = { λ c. c.rules.items };
}

impl ClassRules {
    fn new(alloc: Global) -> ClassRules
        ensures { result ≡ [] }
    {
        ClassRules {
            rules: Vec::new(alloc),
        }
    }

    fn push(&mut self, rule: AllowRule) -> Result<(), AllocError>
        ensures { OnOk result (self.new ≡ self.old ++ rule ∷ []) }
    {
        Ok(self.rules.push(rule)?)
    }

    fn as_slice(&self) -> &[AllowRule]
        ensures { result.now ≡ self.now }
    {
        &self.rules
    }
}

/// The allow rules of a policy, class by class in the order of the file, so that a check looks at those of its classes alone. Contracts
/// see a list of rules for each class.
#[derive(Drop)]
pub struct AllowRules {
    classes: Vec<ClassRules>,
}

impl Model for AllowRules {
    ghost use Rattle.std.specs.Prelude.{List};
    ghost use Rattle.se_checker.specs.declared.allow_rules.AllowRule.{AllowRule};

    ghost Value = { List (List AllowRule) };

    ghost view = { λ a. a.classes.items };
}

impl AllowRules {
    /// Gathers the allow rules of a policy, going through all its rules once.
    pub fn of(alloc: Global, policy: &Policy<'_>) -> Result<AllowRules, AllocError>
        ensures { IfOk result (AreAllowRules policy.now) }
    {
        let mut classes = no_rules(alloc, policy)?;
        for number in 0..policy.rule_count() {
            add_rule(policy, number, &mut classes)?;
        }
        Ok(AllowRules { classes })
    }

    /// The allow rules of the class at a place.
    pub fn of_class(&self, place: u32) -> &[AllowRule]
        requires { place < length self.now }
        ensures { result.now ≡ slice_index_or self.now place [] }
    {
        self.classes[place as usize].as_slice()
    }
}

// No rules, for each class of a policy.
fn no_rules(alloc: Global, policy: &Policy<'_>) -> Result<Vec<ClassRules>, AllocError>
    ensures { IfOk result (λ classes. AreAllowed policy.now 0 classes.items) }
{
    let mut classes = Vec::new(alloc);
    for _place in 0..policy.symbols().classes.len() {
        classes.push(ClassRules::new(alloc))?;
    }
    Ok(classes)
}

// Adds the next rule to those of its class, where it is an allow rule.
fn add_rule(
    policy: &Policy<'_>,
    number: u32,
    classes: &mut Vec<ClassRules>,
) -> Result<(), AllocError>
    requires number { number < length (stored_rules policy.now) }
    requires before { AreAllowed policy.now number classes.old.items }
    ensures { OnOk result (AreAllowed policy.now (number + 1) classes.new.items) }
{
    let rule = policy.rule(number);
    match allow_mask(&rule) {
        Some(mask) => match policy.symbols().classes.by_value(rule.class) {
            Some(place) => classes[place as usize].push(AllowRule {
                number,
                source: rule.source,
                target: rule.target,
                mask,
            }),
            None => Ok(()),
        },
        None => Ok(()),
    }
}

// The permissions that a rule gives, where it is an allow rule.
fn allow_mask(rule: &Rule<'_>) -> Option<u32>
    ensures { result ≡ allow_mask (stored rule.now).kind (stored rule.now).part }
{
    match (rule.kind, &rule.part) {
        (RuleKind::Allow, RulePart::Perms(mask)) => Some(*mask),
        _ => None,
    }
}
