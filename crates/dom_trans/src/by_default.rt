// The rules that set a default, by that default.
ghost use Rattle.std.specs.Prelude.{◌≡◌, ◌≤◌, ◌<◌, ◌^◌, IfOk, if◌then◌else◌, length, map, nat_le, slice_index};
ghost use Rattle.std.specs.List.{All, filter};
ghost use Rattle.pol_read.specs.StoredRules.{stored_rules};
ghost use Rattle.rule_order.specs.ListedOrder.{AreRules};
ghost use Rattle.dom_trans.specs.DefaultRules.{has_default};
ghost use Rattle.dom_trans.specs.Inner.ByDefault.{default_value};

use pol_read::{Policy, RulePart};
use std::alloc::{AllocError, Global};
use std::marker::Model;
use value_groups::Groups;

/// Rules of a policy, grouped by their default. Contracts see the policy and the numbers of the rules.
pub struct RulesByDefault<'p> {
    policy: &'p Policy<'p>,
    numbers: Vec<u32>,
    // The places of the rules in their list.
    groups: Groups,
}

// Its parts go in one call, wherever it is dropped.
impl Drop for RulesByDefault<'_> {
    fn drop(self) {
        let RulesByDefault {
            policy,
            numbers,
            groups,
        } = self;
    }
}

impl<'p> Model for RulesByDefault<'p> {
    ghost use Rattle.rules_between.specs.ChosenRules.{ChosenRules};
    ghost use Rattle.dom_trans.specs.Inner.ByDefault.{AreByDefault};

    ghost Value = { ChosenRules };

    ghost view = { λ r. record { policy = r.policy.now; rules = r.numbers.items } };

    ghost invariant = { λ r. AreByDefault r.policy.now r.numbers.items r.groups };
}

impl<'p> RulesByDefault<'p> {
    /// The rules of these numbers.
    pub fn of_rules(
        alloc: Global,
        policy: &'p Policy<'p>,
        numbers: Vec<u32>,
    ) -> Result<RulesByDefault<'p>, AllocError>
        requires rules { AreRules policy.now numbers.items }
        requires few { length numbers.items < 2 ^ 32 }
        ensures { IfOk result (λ rules. rules ≡ record { policy = policy.now; rules = numbers.items }) }
    {
        let defaults = defaults_of(alloc, policy, &numbers)?;
        let groups = Groups::of_values(alloc, &defaults, policy.type_count())?;
        Ok(RulesByDefault {
            policy,
            numbers,
            groups,
        })
    }

    /// The rules whose default is that type.
    pub fn rules_to(&self, alloc: Global, b: u32) -> Result<Vec<u32>, AllocError>
        requires least { 1 ≤ b }
        requires most { b ≤ self.now.policy.symbols.types.nprim }
        ensures { IfOk result (λ found. found.items ≡ filter (has_default self.now.policy b) self.now.rules) }
    {
        rules_at(alloc, &self.numbers, self.groups.places(b))
    }

    /// How many rules have that type as their default.
    pub fn count_to(&self, b: u32) -> usize
        requires least { 1 ≤ b }
        requires most { b ≤ self.now.policy.symbols.types.nprim }
        ensures { result ≡ length (filter (has_default self.now.policy b) self.now.rules) }
    {
        self.groups.places(b).len()
    }
}

// The rules of some places.
fn rules_at(alloc: Global, rules: &[u32], places: &[u32]) -> Result<Vec<u32>, AllocError>
    requires { All (λ place. place < length rules.now) places.now }
    ensures { IfOk result (λ found. found.items ≡ map (slice_index rules.now) places.now) }
{
    let mut found = Vec::with_capacity(alloc, places.len())?;
    for place in places {
        found.push(rules[*place as usize])?;
    }
    Ok(found)
}

// The defaults of rules.
fn defaults_of(alloc: Global, policy: &Policy<'_>, numbers: &[u32]) -> Result<Vec<u32>, AllocError>
    requires { AreRules policy.now numbers.now }
    ensures { IfOk result (λ defaults. defaults.items ≡ map (default_value policy.now) numbers.now) }
{
    let mut defaults = Vec::with_capacity(alloc, numbers.len())?;
    for number in numbers {
        defaults.push(default_of(policy, *number))?;
    }
    Ok(defaults)
}

// The default of the rule of a number, where it is a value of the policy's types, and else 0.
fn default_of(policy: &Policy<'_>, number: u32) -> u32
    requires { number < length (stored_rules policy.now) }
    ensures { result ≡ default_value policy.now number }
{
    match policy.rule(number).part {
        RulePart::Default(b) => value_up_to(b, policy.type_count()),
        _ => 0,
    }
}

// The value where it is at most that one, and else 0.
fn value_up_to(value: u32, most: u32) -> u32
    ensures { result ≡ (if nat_le value most then value else 0) }
{
    if value <= most { value } else { 0 }
}
