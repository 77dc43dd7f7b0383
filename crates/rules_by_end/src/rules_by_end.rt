// Rules under one of their ends, by the types that it expands to.
ghost use Rattle.std.specs.Prelude.{◌≡◌, ◌<◌, ◌^◌, ℕ, true, List, IfOk, length};
ghost use Rattle.std.specs.List.{All, filter};
ghost use Rattle.std.specs.List.Sorted.{IsPermutation};
ghost use Rattle.pol_bitmap.specs.Nodes.{bits_of};
ghost use Rattle.pol_expand.specs.PolicyMap.{IsPolicyMap};
ghost use Rattle.pol_expand.specs.JoinedTypes.{is_between_types};
ghost use Rattle.rules_by_end.specs.RulesByEnd.{AreRulesBetween, HoldRules, others_of};
ghost use Rattle.rules_by_end.specs.Inner.GroupedRules.{joins_by};

use crate::grouped_rules::GroupedRules;
use crate::grouped_search::{far_ends, rules_joining};
use crate::source_or_target::RuleEnd;
use pol_bitmap::Set;
use pol_expand::{AnyEnd, TypeMap, ends_holding, types_of};
use pol_read::Policy;
use std::alloc::{AllocError, Global};
use std::marker::Model;

/// Rules of a policy under one of their ends, which are found by the types that this end expands to. Contracts see the policy, the end
/// and the rows under each value, and say of which rules these are.
///
/// A row is the number of a rule and its other end, 8 bytes.
pub struct RulesByEnd<'p> {
    policy: &'p Policy<'p>,
    types: &'p TypeMap,
    near: RuleEnd,
    rows: GroupedRules,
}

// Its parts go in one call, wherever it is dropped.
impl Drop for RulesByEnd<'_> {
    fn drop(self) {
        let RulesByEnd {
            policy,
            types,
            near,
            rows,
        } = self;
    }
}

impl<'p> Model for RulesByEnd<'p> {
    ghost use Rattle.pol_expand.specs.PolicyMap.{IsPolicyMap};
    ghost use Rattle.rules_by_end.specs.RulesByEnd.{RulesByEnd};
    ghost use Rattle.rules_by_end.specs.Inner.GroupedRules.{AreFarEnds};

    ghost Value = { RulesByEnd };

    ghost view = { λ r. record { policy = r.policy.now; near = r.near; rows = r.rows } };

    ghost invariant = { λ r. IsPolicyMap r.policy.now r.types.now × AreFarEnds r.policy.now r.rows };
}

impl<'p> RulesByEnd<'p> {
    /// The rules of these numbers under one of their ends, with the map of the policy's types. The ends of each rule are types and
    /// attributes.
    pub fn build(
        alloc: Global,
        policy: &'p Policy<'p>,
        types: &'p TypeMap,
        near: RuleEnd,
        numbers: Vec<u32>,
    ) -> Result<RulesByEnd<'p>, AllocError>
        requires map { IsPolicyMap policy.now types.now }
        requires rules { All (λ number. is_between_types policy.now number ≡ true) numbers.items }
        requires few { length numbers.items < 2 ^ 32 }
        ensures policy { IfOk result (λ rules. rules.policy ≡ policy.now) }
        ensures near { IfOk result (λ rules. rules.near ≡ near) }
        ensures rules { IfOk result (λ rules. HoldRules rules numbers.items) }
    {
        // the policy was accepted, and so the ends of its rules are declared
        policy.is_accepted();
        let rows = GroupedRules::of_rules(alloc, policy, near, &numbers)?;
        Ok(RulesByEnd {
            policy,
            types,
            near,
            rows,
        })
    }

    /// The rules among them whose source expands to the one type, and whose target to the other, in no order of their own.
    pub fn between(&self, alloc: Global, source: u32, target: u32) -> Result<Vec<u32>, AllocError>
        ensures { IfOk result (λ found. (rules : List ℕ) → HoldRules self.now rules → AreRulesBetween self.now.policy rules source target found.items) }
    {
        match self.near {
            RuleEnd::Source => self.joining(alloc, source, target),
            RuleEnd::Target => self.joining(alloc, target, source),
        }
    }

    // The rules that join a type at the end that they stand under to a type at the other.
    fn joining(&self, alloc: Global, node: u32, other: u32) -> Result<Vec<u32>, AllocError>
        ensures { IfOk result (λ found. (rules : List ℕ) → HoldRules self.now rules → IsPermutation found.items (filter (joins_by self.now.near self.now.policy node other) rules)) }
    {
        // the policy was accepted, and so the ends of its rules are declared
        self.policy.is_accepted();
        let from = ends_holding(alloc, self.policy, &self.rows, node)?;
        let to = ends_holding(alloc, self.policy, &AnyEnd, other)?;
        rules_joining(alloc, &self.rows, from.values(), &to)
    }

    /// The types that the rules join a type to, which stands at the end that they stand under.
    pub fn others(&self, alloc: Global, node: u32) -> Result<Set, AllocError>
        ensures { IfOk result (λ set. (rules : List ℕ) → HoldRules self.now rules → bits_of set ≡ others_of self.now.near self.now.policy rules node) }
    {
        // the policy was accepted, and so the ends of its rules are declared
        self.policy.is_accepted();
        let from = ends_holding(alloc, self.policy, &self.rows, node)?;
        let count = self.policy.type_count() as usize + 1;
        let ends = far_ends(alloc, &self.rows, from.values(), count)?;
        types_of(alloc, self.policy, self.types, ends.values())
    }
}
